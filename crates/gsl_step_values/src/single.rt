//! Operations on one value.

ghost use Rattle.std.specs.Prelude.{◌≡◌, ◌+◌, ◌≤◌, [], ◌∷◌, drop, false, length, map, take, true};
ghost use Rattle.std.specs.List.{list_all, list_any};
ghost use Rattle.gsl_instr.specs.declared.instruction.Instruction.TheVariants as instruction;
ghost use Rattle.gsl_region.specs.Showing.{with_words};
ghost use Rattle.gsl_step.specs.Machine.{Does};
ghost use Rattle.gsl_step_values.specs.Values as spec;
ghost use Rattle.gsl_tree.specs.Operations.{builtin_each, is_true};
ghost use Rattle.gsl_values.specs.Operators.{unary_word};
ghost use Rattle.gsl_values.specs.Word.{word_of_bool};

use crate::functions::put_given;
use crate::lanes::{has_room, put_same};
use crate::parts::words_of;
use gsl_base::List;
use gsl_instr::op;
use gsl_lanes::{Operand, unary_lanes};
use gsl_operands::Operands;
use gsl_slots::Slots;
use gsl_step::{Machine, pass};
use gsl_values::{Builtin, Choices, UnaryOp};
use std::alloc::Global;

/// Puts what an operator gives on so many components to a place behind them.
fn put_lanes(slots: &mut Slots, which: UnaryOp, from: u64, at: u64, count: u64)
    ensures { from + count ≤ at → at + count ≤ length slots.old → slots.new ≡ with_words slots.old at (map (unary_word which) (take count (drop from slots.old))) }
{
    if has_room(slots, from, at, count) {
        unary_lanes(slots, which, from as usize, at as usize, count as usize);
    }
}

/// Puts what a built-in function gives on so many components to a place behind them.
fn put_bits(alloc: Global, slots: &mut Slots, which: Builtin, from: u64, at: u64, count: u64)
    ensures { from + count ≤ at → at + count ≤ length slots.old → slots.new ≡ with_words slots.old at (builtin_each which false (take count (drop from slots.old) ∷ []) count 0 []).0 }
{
    let operand = Operand {
        place: from as usize,
        count: count as usize,
    };
    let mut none = Choices::new(List::new(alloc));
    put_given(slots, which, false, &[operand], at, count, &mut none);
}

/// Puts what an operation gives on so many components, of which it joins none, to a place behind them.
#[tactic(auto, unfolding(crate::specs::Values::unary_words))]
fn put_each(alloc: Global, slots: &mut Slots, op: u16, from: u64, at: u64, count: u64)
    ensures { from + count ≤ at → at + count ≤ length slots.old → slots.new ≡ with_words slots.old at (spec.unary_words op count (take count (drop from slots.old))) }
{
    if op == op::S_NEGATE {
        put_lanes(slots, UnaryOp::Negate, from, at, count);
    } else if op == op::NOT {
        put_lanes(slots, UnaryOp::Flip, from, at, count);
    } else if op == op::LOGICAL_NOT {
        put_lanes(slots, UnaryOp::Not, from, at, count);
    } else if op == op::BIT_REVERSE {
        put_bits(alloc, slots, Builtin::BitfieldReverse, from, at, count);
    } else if op == op::BIT_COUNT {
        put_bits(alloc, slots, Builtin::BitCount, from, at, count);
    } else {
        put_same(slots, from, at, count);
    }
}

/// An operation that joins no components.
fn each(
    alloc: Global,
    operands: &Operands<'_>,
    machine: &mut Machine,
    op: u16,
    type_: u32,
    result_id: u32,
    a: u32,
)
    ensures { spec.PutsEach operands.now op type_ result_id a machine.old machine.new }
{
    let slots = machine.standing.slots;
    let count = operands.frames().leaves().leaves(type_);
    let at = operands.place(slots, result_id);
    let from = operands.stands(slots, a);
    put_each(alloc, &mut machine.slots, op, from, at, count);
    pass(&mut machine.standing);
}

/// Whether an operation joins components.
fn joins(op: u16) -> bool
    ensures { result ≡ spec.joins op }
{
    let any = op == op::ANY;
    let all = op == op::ALL;
    any || all
}

/// Whether any of some components is true.
fn any_of(words: &[u32]) -> bool
    ensures { result ≡ list_any is_true words.now }
{
    words.iter().any(|word| *word != 0)
}

/// Whether all of them are.
fn all_of(words: &[u32]) -> bool
    ensures { result ≡ list_all is_true words.now }
{
    words.iter().all(|word| *word != 0)
}

/// The word that joins components.
fn joined_word(op: u16, words: &[u32]) -> u32
    ensures { result ≡ spec.joined_word op words.now }
{
    if op == op::ANY {
        word_of(any_of(words))
    } else {
        word_of(all_of(words))
    }
}

fn word_of(truth: bool) -> u32
    ensures { result ≡ word_of_bool truth }
{
    if truth { 1 } else { 0 }
}

/// Puts the word that joins so many components to a place behind them.
fn put_joined(slots: &mut Slots, op: u16, from: u64, at: u64, count: u64)
    ensures { from + count ≤ at → at + 1 ≤ length slots.old → slots.new ≡ with_words slots.old at (spec.joined_word op (take count (drop from slots.old)) ∷ []) }
{
    if at < slots.len() as u64 && count <= at && from <= at - count {
        let word = joined_word(op, slots.words(from as usize, count as usize));
        slots.store(at as usize, &[word]);
    }
}

/// An operation that joins the components of a vector.
fn joined(operands: &Operands<'_>, machine: &mut Machine, op: u16, result_id: u32, a: u32)
    ensures { spec.PutsJoined operands.now op result_id a machine.old machine.new }
{
    let slots = machine.standing.slots;
    let count = words_of(operands, a);
    let at = operands.place(slots, result_id);
    let from = operands.stands(slots, a);
    put_joined(&mut machine.slots, op, from, at, count);
    pass(&mut machine.standing);
}

/// An operation of either kind.
fn either(
    alloc: Global,
    operands: &Operands<'_>,
    machine: &mut Machine,
    op: u16,
    type_: u32,
    result_id: u32,
    a: u32,
)
    ensures joined { spec.joins op ≡ true → spec.PutsJoined operands.now op result_id a machine.old machine.new }
    ensures each { spec.joins op ≡ false → spec.PutsEach operands.now op type_ result_id a machine.old machine.new }
{
    if joins(op) {
        joined(operands, machine, op, result_id, a);
    } else {
        each(alloc, operands, machine, op, type_, result_id, a);
    }
}

/// SNegate, Not, LogicalNot, BitReverse, BitCount, Any, All and Bitcast.
pub fn unary(
    alloc: Global,
    operands: &Operands<'_>,
    machine: &mut Machine,
    op: u16,
    type_: u32,
    result_id: u32,
    a: u32,
)
    ensures { Does operands.now (instruction.Unary op type_ result_id a) machine.old machine.new }
{
    either(alloc, operands, machine, op, type_, result_id, a);
}
