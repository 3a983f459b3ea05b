//! Pointers along chains of indexes.

ghost use Rattle.std.specs.Prelude.{◌≡◌, ◌+◌, ◌≤◌, ◌∷◌, false, length};
ghost use Rattle.gsl_instr.specs.declared.instruction.Instruction.TheVariants as instruction;
ghost use Rattle.gsl_region.specs.Showing.{with_words};
ghost use Rattle.gsl_shown.specs.Shown.{two_words};
ghost use Rattle.gsl_step_indexes.specs.Indexes as spec;
ghost use Rattle.gsl_step_indexes.specs.Straying.{DoesOrStrays};
ghost use Rattle.gsl_step_memory.specs.Pointers.{into_block};
ghost use Rattle.gsl_valid.specs.CallRules as rules;

use crate::along::along;
use gsl_decorations::pointee;
use gsl_ids::Definitions;
use gsl_kinds::type_of;
use gsl_operands::Operands;
use gsl_slots::Slots;
use gsl_step::{Machine, pass};
use gsl_step_memory::place_of;

/// What a pointer points to, by its type, or 0.
fn target_of(definitions: &Definitions<'_>, id: u32) -> u32
    ensures { result ≡ spec.pointee_if (rules.target definitions.now id) }
{
    match type_of(definitions, id) {
        None => 0,
        Some(type_) => pointee(definitions, type_),
    }
}

/// Puts the words of a pointer into variables to a place among the slots, if there is room.
pub fn put_pointer(slots: &mut Slots, at: u64, place: u64)
    ensures { at + 3 ≤ length slots.old → slots.new ≡ with_words slots.old at (0 ∷ two_words place) }
{
    let low = (place % 4_294_967_296) as u32;
    let high = (place / 4_294_967_296) as u32;
    let all = slots.len() as u64;
    if 3 <= all && at <= all - 3 {
        slots.store(at as usize, &[0, low, high]);
    }
}

/// Puts a pointer into variables to the place of an id.
fn put_led(operands: &Operands<'_>, machine: &mut Machine, result_id: u32, place: u64)
    ensures { spec.PutsPointer operands.now result_id place machine.old machine.new }
{
    let at = operands.place(machine.standing.slots, result_id);
    put_pointer(&mut machine.slots, at, place);
    pass(&mut machine.standing);
}

/// AccessChain, from a pointer that leads into no block, and whether the run goes on: it strays where an index is not below the count of parts.
pub fn chain(
    operands: &Operands<'_>,
    machine: &mut Machine,
    type_: u32,
    result_id: u32,
    base: u32,
    indexes: &[u32],
) -> bool
    ensures { into_block operands.now base ≡ false → DoesOrStrays operands.now (instruction.AccessChain type_ result_id base indexes.now) machine.old machine.new result }
{
    let _type = type_;
    let definitions = operands.frames().leaves().definitions();
    let from = place_of(operands, machine, base);
    let whole = target_of(definitions, base);
    match along(operands, machine, Some(whole), from, indexes) {
        None => false,
        Some(place) => {
            put_led(operands, machine, result_id, place);
            true
        }
    }
}
