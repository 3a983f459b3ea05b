//! Chains of indexes among the words of variables.

ghost use Rattle.std.specs.Prelude.{◌≡◌, None};
ghost use Rattle.gsl_step_indexes.specs.Indexes as spec;

use gsl_leaves::Leaves;
use gsl_operands::Operands;
use gsl_step::{Machine, word_at};
use gsl_step_values::{ahead_of, part_of};

/// How many parts a type has, if there is one.
pub(crate) fn parts_if(leaves: &Leaves<'_>, type_: Option<u32>) -> u64
    ensures { result ≡ spec.parts_if leaves.now type_ }
{
    match type_ {
        None => 0,
        Some(type_) => leaves.parts(type_),
    }
}

/// Where the part of a number begins among the words of variables.
fn further(leaves: &Leaves<'_>, type_: Option<u32>, at: u64, number: u32) -> u64
    ensures { result ≡ spec.further leaves.now type_ at number }
{
    at.saturating_add(ahead_of(leaves, type_, number))
}

/// The place to which indexes lead from that of a part of a type, or `None` where one strays.
pub(crate) fn along(
    operands: &Operands<'_>,
    machine: &Machine,
    type_: Option<u32>,
    from: u64,
    indexes: &[u32],
) -> Option<u64>
    ensures { spec.IsToldAlong operands.now machine.now type_ from indexes.now → result ≡ spec.along operands.now machine.now type_ from indexes.now }
{
    let leaves = operands.frames().leaves();
    let mut part = type_;
    let mut at = from;
    for k in 0..indexes.len() {
        let spot = operands.stands(machine.standing.slots, indexes[k]);
        let word = word_at(&machine.slots, spot);
        let count = parts_if(leaves, part);
        if u64::from(word) >= count {
            return None;
        }
        at = further(leaves, part, at, word);
        part = part_of(leaves.definitions(), part, word);
    }
    Some(at)
}
