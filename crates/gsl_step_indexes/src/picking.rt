//! Components of vectors at indexes.

ghost use Rattle.std.specs.Prelude.{◌≡◌, ◌+◌, ◌≤◌, [], ◌∷◌, length};
ghost use Rattle.gsl_instr.specs.declared.instruction.Instruction.TheVariants as instruction;
ghost use Rattle.gsl_region.specs.Showing.{with_words};
ghost use Rattle.gsl_step_indexes.specs.Indexes as spec;
ghost use Rattle.gsl_step_indexes.specs.Straying.{DoesOrStrays};

use crate::along::parts_if;
use gsl_kinds::type_of;
use gsl_operands::Operands;
use gsl_slots::Slots;
use gsl_step::{Machine, pass, word_at};

/// Puts a word to a place among the slots, if it is one.
fn put_one(slots: &mut Slots, at: u64, word: u32)
    ensures { at + 1 ≤ length slots.old → slots.new ≡ with_words slots.old at (word ∷ []) }
{
    if at < slots.len() as u64 {
        slots.store(at as usize, &[word]);
    }
}

/// Puts the component of a number of an operand to the place of an id.
fn put_picked(
    operands: &Operands<'_>,
    machine: &mut Machine,
    result_id: u32,
    vector: u32,
    number: u32,
)
    ensures { spec.PutsPicked operands.now result_id vector number machine.old machine.new }
{
    let slots = machine.standing.slots;
    let at = operands.place(slots, result_id);
    let from = operands.stands(slots, vector);
    let word = word_at(&machine.slots, from.saturating_add(u64::from(number)));
    put_one(&mut machine.slots, at, word);
    pass(&mut machine.standing);
}

/// VectorExtractDynamic, and whether the run goes on: it strays where the index is not below the count of components.
pub fn pick(
    operands: &Operands<'_>,
    machine: &mut Machine,
    type_: u32,
    result_id: u32,
    vector: u32,
    index: u32,
) -> bool
    ensures { DoesOrStrays operands.now (instruction.VectorExtractDynamic type_ result_id vector index) machine.old machine.new result }
{
    let _type = type_;
    let leaves = operands.frames().leaves();
    let at = operands.stands(machine.standing.slots, index);
    let word = word_at(&machine.slots, at);
    let count = parts_if(leaves, type_of(leaves.definitions(), vector));
    if u64::from(word) >= count {
        return false;
    }
    put_picked(operands, machine, result_id, vector, word);
    true
}
