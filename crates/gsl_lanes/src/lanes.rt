//! Operators component by component, the lowest first.

ghost use Rattle.std.specs.Prelude.{◌≡◌, ◌+◌, ◌≤◌, drop, length, map, take};
ghost use Rattle.gsl_region.specs.Showing.{with_words};
ghost use Rattle.gsl_values.specs.Operators.{unary_word};
ghost use Rattle.gsl_values.specs.Vectors.{binary_each};

use gsl_slots::Slots;
use gsl_values::{BinaryOp, Choices, UnaryOp, binary, unary};

/// Puts what an operator gives on so many components from a place on to a place behind them.
pub fn unary_lanes(slots: &mut Slots, op: UnaryOp, a: usize, at: usize, count: usize)
    requires a { a + count ≤ at }
    requires within { at + count ≤ length slots.old }
    ensures { slots.new ≡ with_words slots.old at (map (unary_word op) (take count (drop a slots.old))) }
{
    let _room = slots.len();
    for k in 0..count {
        let word = unary(op, slots.word(a + k));
        slots.put(at + k, word);
    }
}

/// Puts what an operator gives on so many components from two places on to a place behind them. Where it leaves a component open a choice is
/// drawn.
pub fn binary_lanes(
    slots: &mut Slots,
    op: BinaryOp,
    signed: bool,
    a: usize,
    b: usize,
    at: usize,
    count: usize,
    choices: &mut Choices,
)
    requires a { a + count ≤ at }
    requires b { b + count ≤ at }
    requires within { at + count ≤ length slots.old }
    ensures words { slots.new ≡ with_words slots.old at (binary_each op signed (take count (drop a slots.old)) (take count (drop b slots.old)) choices.old).0 }
    ensures left { choices.new ≡ (binary_each op signed (take count (drop a slots.old)) (take count (drop b slots.old)) choices.old).1 }
{
    let _room = slots.len();
    for k in 0..count {
        let word = binary(op, signed, slots.word(a + k), slots.word(b + k), choices);
        slots.put(at + k, word);
    }
}
