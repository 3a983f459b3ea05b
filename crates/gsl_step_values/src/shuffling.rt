//! Components of two vectors in a new order.

ghost use Rattle.std.specs.Prelude.{◌≡◌, ◌+◌, ◌++◌, ◌<◌, ◌≤◌, drop, length, map, set, slice_index, take};
ghost use Rattle.gsl_instr.specs.declared.instruction.Instruction.TheVariants as instruction;
ghost use Rattle.gsl_leaves.specs.Table.{most};
ghost use Rattle.gsl_region.specs.Showing.{with_words};
ghost use Rattle.gsl_step.specs.Machine.{Does};
ghost use Rattle.gsl_step_values.specs.Parts as spec;

use crate::parts::words_of;
use gsl_operands::Operands;
use gsl_slots::Slots;
use gsl_step::{Machine, pass, word_at};

/// Words among the slots: where they begin, and how many there are.
#[derive(Clone, Copy)]
pub(crate) struct Row {
    pub place: u64,
    pub count: u64,
}

/// The word at a position of two rows, the one behind the other, or 0 where there is none.
fn picked(slots: &Slots, first: Row, second: Row, position: u32) -> u32
    ensures { first.place + first.count ≤ length slots.now → second.place + second.count ≤ length slots.now → result ≡ slice_index (take first.count (drop first.place slots.now) ++ take second.count (drop second.place slots.now)) position }
{
    let _room = slots.len();
    let position = u64::from(position);
    if position < first.count {
        return word_at(slots, first.place.saturating_add(position));
    }
    let behind = position - first.count;
    if behind < second.count {
        return word_at(slots, second.place.saturating_add(behind));
    }
    0
}

/// Changes the word at a place, if it is one.
fn put_word(slots: &mut Slots, at: u64, word: u32)
    ensures { at < length slots.old → slots.new ≡ set slots.old at word }
{
    if at < slots.len() as u64 {
        slots.put(at as usize, word);
    }
}

/// Puts the words at positions of two rows to a place behind them.
fn put_picked(slots: &mut Slots, first: Row, second: Row, positions: &[u32], at: u64)
    ensures { first.place + first.count ≤ at → second.place + second.count ≤ at → at + length positions.now ≤ length slots.old → length slots.old ≤ most → slots.new ≡ with_words slots.old at (map (slice_index (take first.count (drop first.place slots.old) ++ take second.count (drop second.place slots.old))) positions.now) }
{
    for k in 0..positions.len() {
        let word = picked(slots, first, second, positions[k]);
        put_word(slots, at.saturating_add(k as u64), word);
    }
}

/// Puts the components at positions of two operands to the place of an id.
fn put_shuffled(
    operands: &Operands<'_>,
    machine: &mut Machine,
    result_id: u32,
    a: u32,
    b: u32,
    positions: &[u32],
)
    ensures { spec.PutsShuffled operands.now result_id a b positions.now machine.old machine.new }
{
    let slots = machine.standing.slots;
    let at = operands.place(slots, result_id);
    let x = operands.stands(slots, a);
    let x_count = words_of(operands, a);
    let y = operands.stands(slots, b);
    let y_count = words_of(operands, b);
    let first = Row {
        place: x,
        count: x_count,
    };
    let second = Row {
        place: y,
        count: y_count,
    };
    put_picked(&mut machine.slots, first, second, positions, at);
    pass(&mut machine.standing);
}

/// VectorShuffle.
pub fn shuffle(
    operands: &Operands<'_>,
    machine: &mut Machine,
    type_: u32,
    result_id: u32,
    a: u32,
    b: u32,
    positions: &[u32],
)
    ensures { Does operands.now (instruction.VectorShuffle type_ result_id a b positions.now) machine.old machine.new }
{
    let _type = type_;
    put_shuffled(operands, machine, result_id, a, b, positions);
}
