//! Built-in functions on operands, where there is room.

ghost use Rattle.std.specs.Prelude.{◌≡◌, ◌+◌, ◌<◌, ◌≤◌, Some, ℕ, length, map, nat_le, slice_get, take, true};
ghost use Rattle.std.specs.List.{list_all};
ghost use Rattle.gsl_instr.specs.declared.instruction.Instruction.TheVariants as instruction;
ghost use Rattle.gsl_lanes.specs.Operands.{words_at};
ghost use Rattle.gsl_leaves.specs.Table.{most};
ghost use Rattle.gsl_operands.specs.Operands.{stands};
ghost use Rattle.gsl_region.specs.Showing.{with_words};
ghost use Rattle.gsl_step.specs.Machine.{Does};
ghost use Rattle.gsl_step_values.specs.Values as spec;
ghost use Rattle.gsl_tree.specs.Operations.{builtin_each};

use gsl_base::List;
use gsl_enact_values::function_of;
use gsl_instr::op;
use gsl_lanes::{Operand, builtin_lanes};
use gsl_operands::Operands;
use gsl_slots::Slots;
use gsl_step::{Machine, pass};
use gsl_values::{Builtin, Choices};
use std::alloc::Global;

/// Whether so many words from a place on end in front of another.
fn ends_before(place: usize, count: usize, at: usize) -> bool
    ensures { result ≡ nat_le (place + count) at }
{
    match place.checked_add(count) {
        Some(end) => end <= at,
        None => false,
    }
}

/// Whether an operand stands in front of a place, and has so many components, or one that serves for each.
fn serves(operand: Operand, at: u64, count: u64) -> bool
    ensures { result ≡ spec.serves at count operand }
{
    let alike = operand.count == 1 || operand.count == count as usize;
    ends_before(operand.place, operand.count, at as usize) && alike
}

/// Whether each operand does.
fn all_serve(parts: &[Operand], at: u64, count: u64) -> bool
    ensures { result ≡ list_all (spec.serves at count) parts.now }
{
    parts.iter().all(|part| serves(*part, at, count))
}

/// Puts what a built-in function gives on so many components of operands to a place behind them, if they serve and there is room.
pub(crate) fn put_given(
    slots: &mut Slots,
    which: Builtin,
    signed: bool,
    parts: &[Operand],
    at: u64,
    count: u64,
    choices: &mut Choices,
)
    ensures words { list_all (spec.serves at count) parts.now ≡ true → at + count ≤ length slots.old → slots.new ≡ with_words slots.old at (builtin_each which signed (map (words_at slots.old) parts.now) count 0 choices.old).0 }
    ensures left { list_all (spec.serves at count) parts.now ≡ true → at + count ≤ length slots.old → choices.new ≡ (builtin_each which signed (map (words_at slots.old) parts.now) count 0 choices.old).1 }
{
    let serve = all_serve(parts, at, count);
    let room = ends_before(at as usize, count as usize, slots.len());
    if serve && room {
        builtin_lanes(
            slots,
            which,
            signed,
            parts,
            at as usize,
            count as usize,
            choices,
        );
    }
}

/// An operand of so many components.
fn part(operands: &Operands<'_>, slots: u64, id: u32, count: u64) -> Operand
    ensures { id < operands.now.bound → stands operands.now slots id ≤ most → result ≡ record { place = stands operands.now slots id; count = count } }
{
    Operand {
        place: operands.stands(slots, id) as usize,
        count: count as usize,
    }
}

/// Select.
pub fn select(
    alloc: Global,
    operands: &Operands<'_>,
    machine: &mut Machine,
    type_: u32,
    result_id: u32,
    condition: u32,
    a: u32,
    b: u32,
)
    ensures { Does operands.now (instruction.Select type_ result_id condition a b) machine.old machine.new }
{
    let slots = machine.standing.slots;
    let count = operands.frames().leaves().leaves(type_);
    let at = operands.place(slots, result_id);
    let first = part(operands, slots, b, count);
    let second = part(operands, slots, a, count);
    let third = part(operands, slots, condition, count);
    let mut none = Choices::new(List::new(alloc));
    put_given(
        &mut machine.slots,
        Builtin::Mix,
        false,
        &[first, second, third],
        at,
        count,
        &mut none,
    );
    pass(&mut machine.standing);
}

/// BitFieldInsert.
pub fn bit_field_insert(
    operands: &Operands<'_>,
    machine: &mut Machine,
    type_: u32,
    result_id: u32,
    base: u32,
    insert: u32,
    offset: u32,
    bits: u32,
)
    ensures { Does operands.now (instruction.BitFieldInsert type_ result_id base insert offset bits) machine.old machine.new }
{
    let slots = machine.standing.slots;
    let count = operands.frames().leaves().leaves(type_);
    let at = operands.place(slots, result_id);
    let first = part(operands, slots, base, count);
    let second = part(operands, slots, insert, count);
    let third = part(operands, slots, offset, 1);
    let fourth = part(operands, slots, bits, 1);
    put_given(
        &mut machine.slots,
        Builtin::BitfieldInsert,
        false,
        &[first, second, third, fourth],
        at,
        count,
        &mut machine.choices,
    );
    pass(&mut machine.standing);
}

/// BitFieldSExtract and BitFieldUExtract.
pub fn bit_field_extract(
    operands: &Operands<'_>,
    machine: &mut Machine,
    op: u16,
    type_: u32,
    result_id: u32,
    base: u32,
    offset: u32,
    bits: u32,
)
    ensures { Does operands.now (instruction.BitFieldExtract op type_ result_id base offset bits) machine.old machine.new }
{
    let slots = machine.standing.slots;
    let count = operands.frames().leaves().leaves(type_);
    let at = operands.place(slots, result_id);
    let first = part(operands, slots, base, count);
    let second = part(operands, slots, offset, 1);
    let third = part(operands, slots, bits, 1);
    put_given(
        &mut machine.slots,
        Builtin::BitfieldExtract,
        op == op::BIT_FIELD_S_EXTRACT,
        &[first, second, third],
        at,
        count,
        &mut machine.choices,
    );
    pass(&mut machine.standing);
}

/// An operand of so many components, by its number among ids.
fn nth_part(operands: &Operands<'_>, slots: u64, ids: &[u32], k: usize, count: u64) -> Operand
    ensures { (id : ℕ) → slice_get ids.now k ≡ Some id → id < operands.now.bound → stands operands.now slots id ≤ most → result ≡ record { place = stands operands.now slots id; count = count } }
{
    match ids.get(k) {
        Some(id) => part(operands, slots, *id, count),
        None => Operand { place: 0, count: 0 },
    }
}

/// The first of some operands.
fn first_of(parts: &[Operand], count: usize) -> &[Operand]
    ensures { count ≤ length parts.now → result.now ≡ take count parts.now }
{
    if count <= parts.len() {
        &parts[..count]
    } else {
        parts
    }
}

/// An extended instruction, which has three operands at most.
pub fn extended(
    alloc: Global,
    operands: &Operands<'_>,
    machine: &mut Machine,
    type_: u32,
    result_id: u32,
    set: u32,
    number: u32,
    values: &[u32],
)
    ensures { Does operands.now (instruction.ExtInst type_ result_id set number values.now) machine.old machine.new }
{
    let _set = set;
    let function = function_of(number);
    let slots = machine.standing.slots;
    let count = operands.frames().leaves().leaves(type_);
    let at = operands.place(slots, result_id);
    let first = nth_part(operands, slots, values, 0, count);
    let second = nth_part(operands, slots, values, 1, count);
    let third = nth_part(operands, slots, values, 2, count);
    let mut none = Choices::new(List::new(alloc));
    put_given(
        &mut machine.slots,
        function.0,
        function.1,
        first_of(&[first, second, third], values.len()),
        at,
        count,
        &mut none,
    );
    pass(&mut machine.standing);
}
