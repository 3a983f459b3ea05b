//! Operations on components in slots, where there is room.

ghost use Rattle.std.specs.Prelude.{◌≡◌, ◌+◌, ◌≤◌, drop, length, take, true};
ghost use Rattle.gsl_region.specs.Showing.{with_words};
ghost use Rattle.gsl_values.specs.Vectors.{binary_each};

use gsl_lanes::binary_lanes;
use gsl_slots::Slots;
use gsl_values::{BinaryOp, Choices};

/// Whether so many words of an operand stand in front of a place, and as many among the slots behind it.
pub(crate) fn has_room(slots: &Slots, from: u64, at: u64, count: u64) -> bool
    ensures yes { result ≡ true → (from + count ≤ at) × (at + count ≤ length slots.now) }
    ensures no { from + count ≤ at → at + count ≤ length slots.now → result ≡ true }
{
    let all = slots.len() as u64;
    count <= at && from <= at - count && at <= all && count <= all - at
}

/// Puts what an operator gives on so many components of two operands to a place behind them.
pub(crate) fn put_two(
    slots: &mut Slots,
    operator: (BinaryOp, bool),
    a: u64,
    b: u64,
    at: u64,
    count: u64,
    choices: &mut Choices,
)
    ensures words { a + count ≤ at → b + count ≤ at → at + count ≤ length slots.old → slots.new ≡ with_words slots.old at (binary_each operator.0 operator.1 (take count (drop a slots.old)) (take count (drop b slots.old)) choices.old).0 }
    ensures left { a + count ≤ at → b + count ≤ at → at + count ≤ length slots.old → choices.new ≡ (binary_each operator.0 operator.1 (take count (drop a slots.old)) (take count (drop b slots.old)) choices.old).1 }
{
    if has_room(slots, a, at, count) && has_room(slots, b, at, count) {
        binary_lanes(
            slots,
            operator.0,
            operator.1,
            a as usize,
            b as usize,
            at as usize,
            count as usize,
            choices,
        );
    }
}

/// Puts so many words to a place behind them.
pub fn put_same(slots: &mut Slots, from: u64, at: u64, count: u64)
    ensures { from + count ≤ at → at + count ≤ length slots.old → slots.new ≡ with_words slots.old at (take count (drop from slots.old)) }
{
    if has_room(slots, from, at, count) {
        slots.copy(from as usize, at as usize, count as usize);
    }
}
