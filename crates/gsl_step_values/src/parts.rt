//! Where parts of values stand among their words, by types.

ghost use Rattle.std.specs.Prelude.{◌≡◌, ◌≤◌, if◌then◌else◌, ℕ, None, Some, length, nat_lt, slice_index};
ghost use Rattle.gsl_kinds.specs.Seen.{shape_seen};
ghost use Rattle.gsl_leaves.specs.Leaves as counts;
ghost use Rattle.gsl_leaves.specs.Table.{most, told};
ghost use Rattle.gsl_step_values.specs.Parts as spec;
ghost use Rattle.gsl_valid.specs.Kinds as kinds;
ghost use Rattle.gsl_valid.specs.OperandRules as rules;
ghost use Rattle.gsl_valid.specs.Types.{defined_as};

use gsl_ids::Definitions;
use gsl_kinds::{Shape, shape_of, type_of, value_of};
use gsl_leaves::Leaves;
use gsl_operands::Operands;

/// A type, if a number is below a count.
fn if_below(number: u32, count: Option<u32>, type_: u32) -> Option<u32>
    ensures { result ≡ rules.if_below number count type_ }
{
    match count {
        None => None,
        Some(count) => { if number < count { Some(type_) } else { None } }
    }
}

/// The type of the member of a number.
fn member_at(members: &[u32], number: u32) -> Option<u32>
    ensures { result ≡ if nat_lt number (length members.now) then Some (slice_index members.now number) else None }
{
    if (number as usize) < members.len() {
        Some(members[number as usize])
    } else {
        None
    }
}

/// The type of the part of a number.
fn part_in(definitions: &Definitions<'_>, shape: Shape<'_>, number: u32) -> Option<u32>
    ensures { result ≡ rules.part_of_at definitions.now number (shape_seen shape.entry) }
{
    match shape {
        Shape::Vector { component, count } => if_below(number, Some(count), component),
        Shape::Array { element, length } => {
            if_below(number, value_of(definitions, length), element)
        }
        Shape::Struct { members, .. } => member_at(members, number),
        _ => None,
    }
}

/// The type of the part of a number, if there is a type.
pub fn part_of(definitions: &Definitions<'_>, type_: Option<u32>, number: u32) -> Option<u32>
    ensures { result ≡ spec.part_of definitions.now type_ number }
{
    match type_ {
        None => None,
        Some(type_) => part_in(definitions, shape_of(definitions, type_), number),
    }
}

/// How many words stand in front of the part of a number, if there is a type.
#[tactic(auto, unfolding(gsl_leaves::specs::Table::told))]
pub fn ahead_of(leaves: &Leaves<'_>, type_: Option<u32>, number: u32) -> u64
    ensures { result ≡ told (spec.ahead_of leaves.now type_ number) }
{
    match type_ {
        None => 0,
        Some(type_) => leaves.ahead(type_, number),
    }
}

/// How many words of a value of a type stand in front of the part to which a path leads, as far as it is told.
pub(crate) fn offset(leaves: &Leaves<'_>, type_: Option<u32>, path: &[u32]) -> u64
    ensures { counts.offset leaves.now type_ path.now ≤ most → result ≡ counts.offset leaves.now type_ path.now }
{
    let mut at: u64 = 0;
    let mut part = type_;
    for k in 0..path.len() {
        at = at.saturating_add(ahead_of(leaves, part, path[k]));
        part = part_of(leaves.definitions(), part, path[k]);
    }
    at
}

/// How many words an operand has, as far as it is told.
pub fn words_of(operands: &Operands<'_>, id: u32) -> u64
    ensures typed { (type : ℕ) → kinds.type_of (defined_as operands.now id) ≡ Some type → counts.leaves operands.now type ≤ most → result ≡ counts.leaves operands.now type }
    ensures all { spec.count_in operands.now (kinds.type_of (defined_as operands.now id)) ≤ most → result ≡ spec.count_in operands.now (kinds.type_of (defined_as operands.now id)) }
{
    let leaves = operands.frames().leaves();
    match type_of(leaves.definitions(), id) {
        Some(type_) => leaves.leaves(type_),
        None => 0,
    }
}
