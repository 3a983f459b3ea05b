//! Values that are returned.

ghost use Rattle.std.specs.Prelude.{◌≡◌, ◌+◌, ◌≤◌, ◌⊎◌, ◌∷◌, ℕ, Some, drop, length, take, true};
ghost use Rattle.gsl_instr.specs.declared.instruction.Instruction.TheVariants as instruction;
ghost use Rattle.gsl_region.specs.Showing.{with_words};
ghost use Rattle.gsl_step_calls.specs.Ending as spec;
ghost use Rattle.gsl_valid.specs.Ids as defining;
ghost use Rattle.gsl_valid.specs.Instruction.{read};
ghost use Rattle.gsl_words.specs.declared.module.Instr.{Instr};

use crate::next::Next;
use gsl_ids::{Definitions, defined_by};
use gsl_operands::Operands;
use gsl_slots::Slots;
use gsl_step::{Machine, Standing, pass};
use gsl_step_values::words_of;

/// The id that the instruction of a number defines, or 0.
fn result_at(definitions: &Definitions<'_>, at: u32) -> u32
    ensures { (i : Instr) (id : ℕ) → drop at definitions.now.instrs ≡ i ∷ drop (at + 1) definitions.now.instrs → defining.result (read i) ≡ Some id → result ≡ id }
{
    match definitions.instr(at as usize) {
        Some((op, args)) => match defined_by(op, args) {
            Some(id) => id,
            None => 0,
        },
        None => 0,
    }
}

/// Copies so many words to a place that they do not reach.
fn copy_apart(slots: &mut Slots, from: usize, at: usize, count: usize)
    requires apart { (from + count ≤ at) ⊎ (at + count ≤ from) }
    requires there { from + count ≤ length slots.old }
    requires room { at + count ≤ length slots.old }
    ensures { slots.new ≡ with_words slots.old at (take count (drop from slots.old)) }
{
    let _all = slots.len();
    for k in 0..count {
        let word = slots.word(from + k);
        slots.put(at + k, word);
    }
}

/// Whether so many words from a place on end in front of another.
fn ends_before(from: u64, count: u64, at: u64) -> bool
    ensures yes { result ≡ true → from + count ≤ at }
    ensures no { from + count ≤ at → result ≡ true }
{
    count <= at && from <= at - count
}

/// Copies so many words to a place that they do not reach, if there is room.
fn put_apart(slots: &mut Slots, from: u64, at: u64, count: u64)
    ensures { (from + count ≤ at) ⊎ (at + count ≤ from) → from + count ≤ length slots.old → at + count ≤ length slots.old → slots.new ≡ with_words slots.old at (take count (drop from slots.old)) }
{
    let all = slots.len() as u64;
    if !ends_before(from, count, all) || !ends_before(at, count, all) {
        return;
    }
    if ends_before(from, count, at) {
        copy_apart(slots, from as usize, at as usize, count as usize);
        return;
    }
    if ends_before(at, count, from) {
        copy_apart(slots, from as usize, at as usize, count as usize);
    }
}

/// The function that waits goes on behind its call, of which the id gets the words of a value.
fn return_to(operands: &Operands<'_>, machine: &mut Machine, caller: Standing, value: u32)
    ensures { spec.Returns operands.now value caller machine.old machine.new }
{
    let from = operands.stands(machine.standing.slots, value);
    let count = words_of(operands, value);
    let id = result_at(operands.frames().leaves().definitions(), caller.at);
    let at = operands.place(caller.slots, id);
    put_apart(&mut machine.slots, from, at, count);
    machine.standing = caller;
    pass(&mut machine.standing);
}

/// ReturnValue: the function that waits goes on behind its call with the value, or the run ends.
pub fn leave_with(operands: &Operands<'_>, machine: &mut Machine, value: u32) -> Next
    ensures { spec.DoesOrEnds operands.now (instruction.ReturnValue value) machine.old machine.new result }
{
    match machine.callers.pop() {
        None => Next::Ends { killed: false },
        Some(caller) => {
            return_to(operands, machine, caller, value);
            Next::Goes
        }
    }
}
