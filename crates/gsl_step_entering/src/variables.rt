//! What the variables of functions begin as.

ghost use Rattle.std.specs.Prelude.{◌≡◌, ◌<◌, ◌≤◌, ◌^◌, length};
ghost use Rattle.gsl_kinds.specs.Seen.{kind_seen};
ghost use Rattle.gsl_step_entering.specs.Begun as spec;
ghost use Rattle.gsl_valid.specs.Kinds as kinds;

use gsl_instr::op;
use gsl_kinds::{Kind, kind_at};
use gsl_operands::Operands;
use gsl_region::Region;
use gsl_slots::Slots;
use gsl_step_memory::{copy_in, first_of};
use gsl_step_values::words_of;
use gsl_words::Module;

/// The initialiser of a variable, if an instruction is one.
fn initial_id(kind: Kind<'_>) -> Option<u32>
    ensures { result ≡ spec.initial_id (kinds.variable_in (kind_seen kind.entry)) }
{
    match kind {
        Kind::Holds(variable) => Some(first_of(variable.initialiser)),
        _ => None,
    }
}

/// Puts the words of the initialiser of a variable, if an instruction is one, to a place among those of variables; and where they end.
fn put_initial(
    operands: &Operands<'_>,
    slots: &Slots,
    words: &mut Region,
    kind: Kind<'_>,
    at: u64,
) -> u64
    ensures { spec.PutsInitial operands.now slots.now (kinds.variable_in (kind_seen kind.entry)) at words.old words.new result }
{
    match initial_id(kind) {
        None => at,
        Some(id) => {
            let count = words_of(operands, id);
            let from = operands.stands(0, id);
            copy_in(slots, from, words, at, count);
            at.saturating_add(count)
        }
    }
}

/// How many instructions a module has.
fn count_of(of: &Module) -> u32
    ensures within { result ≤ length of.now.instrs }
    ensures few { length of.now.instrs < 2 ^ 32 → result ≡ length of.now.instrs }
{
    of.instrs.len().min(4_294_967_295) as u32
}

/// Where a function goes on behind an instruction of an opcode.
fn next_at(count: u32, at: u32, op: u16) -> u32
    ensures same { at < count → result ≡ spec.next_at count at op }
    ensures more { at < count → at < result }
{
    if op == op::FUNCTION_END {
        count
    } else {
        at.saturating_add(1)
    }
}

/// Puts the words of the initialisers of a function's variables to a place among those of variables, in their order; its body begins at the instruction of a number.
pub(crate) fn put_variables(
    operands: &Operands<'_>,
    slots: &Slots,
    words: &mut Region,
    body: u32,
    begin: u64,
)
    ensures { spec.PutsAllInitial operands.now slots.now body begin words.old words.new }
{
    let of = operands.frames().leaves().definitions().module();
    let count = count_of(of);
    let mut end = begin;
    let mut at = body;
    while at < count {
        let op = of.instrs.op(at);
        let args = of.instrs.args(at);
        end = put_initial(operands, slots, words, kind_at(op, args), end);
        at = next_at(count, at, op);
    }
}
