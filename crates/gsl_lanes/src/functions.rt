//! Built-in functions component by component, the lowest first.

ghost use Rattle.std.specs.Prelude.{◌≡◌, ◌+◌, ◌<◌, ◌≤◌, ◌⊎◌, length, map, slice_index};
ghost use Rattle.gsl_lanes.specs.Operands as spec;
ghost use Rattle.gsl_region.specs.Showing.{with_words};
ghost use Rattle.gsl_tree.specs.Operations.{builtin_each, component_at};

use gsl_slots::Slots;
use gsl_values::{Builtin, Choices, builtin};

/// Where the components of an operand begin, and how many there are.
#[derive(Clone, Copy, Debug)]
pub struct Operand {
    pub place: usize,
    pub count: usize,
}

/// Puts what a built-in function gives on so many components of its operands to a place behind them; an operand of one component serves for each.
/// Where the function leaves a component open a choice is drawn. There are four operands at most.
pub fn builtin_lanes(
    slots: &mut Slots,
    which: Builtin,
    signed: bool,
    operands: &[Operand],
    at: usize,
    count: usize,
    choices: &mut Choices,
)
    requires serve { spec.Serve operands.now at count }
    requires within { at + count ≤ length slots.old }
    ensures words { slots.new ≡ with_words slots.old at (builtin_each which signed (map (spec.words_at slots.old) operands.now) count 0 choices.old).0 }
    ensures left { choices.new ≡ (builtin_each which signed (map (spec.words_at slots.old) operands.now) count 0 choices.old).1 }
{
    let _room = slots.len();
    for k in 0..count {
        let a = component(slots, operands, at, count, 0, k);
        let b = component(slots, operands, at, count, 1, k);
        let c = component(slots, operands, at, count, 2, k);
        let d = component(slots, operands, at, count, 3, k);
        let word = builtin(which, signed, &[a, b, c, d], choices);
        slots.put(at + k, word);
    }
}

/// A component of the operand of a number, 0 where there is none.
fn component(
    slots: &Slots,
    operands: &[Operand],
    at: usize,
    count: usize,
    i: usize,
    k: usize,
) -> u32
    requires serve { spec.Serve operands.now at count }
    requires within { at ≤ length slots.now }
    requires below { k < count }
    ensures { result ≡ slice_index (map (λ operand. component_at k (spec.words_at slots.now operand)) operands.now) i }
{
    match operands.get(i) {
        Some(operand) => word(slots, *operand, k),
        None => 0,
    }
}

/// A component of an operand.
fn word(slots: &Slots, operand: Operand, k: usize) -> u32
    requires within { operand.place + operand.count ≤ length slots.now }
    requires serves { (operand.count ≡ 1) ⊎ (k < operand.count) }
    ensures { result ≡ component_at k (spec.words_at slots.now operand) }
{
    let _room = slots.len();
    if operand.count == 1 {
        slots.word(operand.place)
    } else {
        slots.word(operand.place + k)
    }
}
