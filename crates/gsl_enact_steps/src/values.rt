//! Instructions that give values of values.

ghost use Rattle.std.specs.Prelude.{◌≡◌, IfOk, slice_get};
ghost use Rattle.gsl_enact_state.specs.Seen.{state_seen};
ghost use Rattle.gsl_enact_steps.specs.Outcomes.{outcome_seen};
ghost use Rattle.gsl_kinds.specs.Seen.{shape_seen};
ghost use Rattle.gsl_machine.specs.Operations as operations;
ghost use Rattle.gsl_machine.specs.State.{giving_value, on_whole};
ghost use Rattle.gsl_machine.specs.Steps as steps;
ghost use Rattle.gsl_tree.specs.Operations.{value_at, with_value_at};
ghost use Rattle.gsl_tree.specs.Values.{parts_in, word_in as word_of};
ghost use Rattle.gsl_valid.specs.Kinds.{shape_of as shape_of_type};
ghost use Rattle.gsl_valid.specs.OperandRules.{is_vector as is_vector_shape};
ghost use Rattle.gsl_valid.specs.Types.{defined_as};
ghost use Rattle.gsl_words.specs.declared.module.Module.{Module};

use crate::operands::all_values;
use crate::step::{Step, give_value};
use gsl_base::Memory;
use gsl_compute::{copy_value, word_in};
use gsl_enact_state::{Globals, State};
use gsl_enact_values::{
    Operator, binary, constructed, extend, extracted, inserted, part_at, parts_of, put, select,
    shuffled, unary,
};
use gsl_kinds::{Shape, shape_of};
use gsl_values::Value;
use std::alloc::Global;

/// An operator on the values of two ids.
pub fn on_two(
    alloc: Global,
    globals: &Globals<'_>,
    state: &mut State<'_>,
    id: u32,
    a: u32,
    b: u32,
    operator: Operator,
) -> Result<Step, Memory>
    ensures { IfOk result (λ s. outcome_seen globals.now state.new s ≡ steps.on_two (state_seen globals.now state.old) id a b operator) }
{
    match globals.value(alloc, state, a)? {
        None => Ok(Step::Stuck),
        Some(x) => on_second(alloc, globals, state, id, &x, b, operator),
    }
}

fn on_second(
    alloc: Global,
    globals: &Globals<'_>,
    state: &mut State<'_>,
    id: u32,
    x: &Value,
    b: u32,
    operator: Operator,
) -> Result<Step, Memory>
    ensures { IfOk result (λ s. outcome_seen globals.now state.new s ≡ on_whole ((state_seen globals.now state.old).ids b) (λ y. steps.drawing (state_seen globals.now state.old) id (operations.binary operator x.now y))) }
{
    match globals.value(alloc, state, b)? {
        None => Ok(Step::Stuck),
        Some(y) => {
            let value = binary(alloc, operator, x, &y, &mut state.choices)?;
            give_value(state, id, value)
        }
    }
}

/// An operator on the value of an id.
pub fn on_unary(
    alloc: Global,
    globals: &Globals<'_>,
    state: &mut State<'_>,
    code: u16,
    id: u32,
    a: u32,
) -> Result<Step, Memory>
    ensures { IfOk result (λ s. outcome_seen globals.now state.new s ≡ on_whole ((state_seen globals.now state.old).ids a) (λ v. giving_value (state_seen globals.now state.old) id (operations.unary code v))) }
{
    match globals.value(alloc, state, a)? {
        None => Ok(Step::Stuck),
        Some(v) => {
            let value = unary(alloc, code, &v)?;
            give_value(state, id, value)
        }
    }
}

/// The first of two values where a condition holds.
pub fn selected(
    alloc: Global,
    globals: &Globals<'_>,
    state: &mut State<'_>,
    id: u32,
    condition: u32,
    a: u32,
    b: u32,
) -> Result<Step, Memory>
    ensures { IfOk result (λ s. outcome_seen globals.now state.new s ≡ on_whole ((state_seen globals.now state.old).ids condition) (λ c. on_whole ((state_seen globals.now state.old).ids a) (λ x. on_whole ((state_seen globals.now state.old).ids b) (λ y. giving_value (state_seen globals.now state.old) id (operations.select c x y))))) }
{
    match globals.value(alloc, state, condition)? {
        None => Ok(Step::Stuck),
        Some(c) => select_if(alloc, globals, state, id, &c, a, b),
    }
}

fn select_if(
    alloc: Global,
    globals: &Globals<'_>,
    state: &mut State<'_>,
    id: u32,
    c: &Value,
    a: u32,
    b: u32,
) -> Result<Step, Memory>
    ensures { IfOk result (λ s. outcome_seen globals.now state.new s ≡ on_whole ((state_seen globals.now state.old).ids a) (λ x. on_whole ((state_seen globals.now state.old).ids b) (λ y. giving_value (state_seen globals.now state.old) id (operations.select c.now x y)))) }
{
    match globals.value(alloc, state, a)? {
        None => Ok(Step::Stuck),
        Some(x) => select_of(alloc, globals, state, id, c, &x, b),
    }
}

fn select_of(
    alloc: Global,
    globals: &Globals<'_>,
    state: &mut State<'_>,
    id: u32,
    c: &Value,
    x: &Value,
    b: u32,
) -> Result<Step, Memory>
    ensures { IfOk result (λ s. outcome_seen globals.now state.new s ≡ on_whole ((state_seen globals.now state.old).ids b) (λ y. giving_value (state_seen globals.now state.old) id (operations.select c.now x.now y))) }
{
    match globals.value(alloc, state, b)? {
        None => Ok(Step::Stuck),
        Some(y) => {
            let value = select(alloc, c, x, &y)?;
            give_value(state, id, value)
        }
    }
}

/// A bit field taken out of a word.
pub fn bits_extracted(
    alloc: Global,
    globals: &Globals<'_>,
    state: &mut State<'_>,
    code: u16,
    id: u32,
    base: u32,
    offset: u32,
    count: u32,
) -> Result<Step, Memory>
    ensures { IfOk result (λ s. outcome_seen globals.now state.new s ≡ on_whole ((state_seen globals.now state.old).ids base) (λ x. on_whole ((state_seen globals.now state.old).ids offset) (λ at. on_whole ((state_seen globals.now state.old).ids count) (λ n. steps.drawing (state_seen globals.now state.old) id (operations.extracted code x at n))))) }
{
    match globals.value(alloc, state, base)? {
        None => Ok(Step::Stuck),
        Some(x) => extract_at(alloc, globals, state, code, id, &x, offset, count),
    }
}

fn extract_at(
    alloc: Global,
    globals: &Globals<'_>,
    state: &mut State<'_>,
    code: u16,
    id: u32,
    x: &Value,
    offset: u32,
    count: u32,
) -> Result<Step, Memory>
    ensures { IfOk result (λ s. outcome_seen globals.now state.new s ≡ on_whole ((state_seen globals.now state.old).ids offset) (λ at. on_whole ((state_seen globals.now state.old).ids count) (λ n. steps.drawing (state_seen globals.now state.old) id (operations.extracted code x.now at n)))) }
{
    match globals.value(alloc, state, offset)? {
        None => Ok(Step::Stuck),
        Some(at) => extract_of(alloc, globals, state, code, id, x, &at, count),
    }
}

fn extract_of(
    alloc: Global,
    globals: &Globals<'_>,
    state: &mut State<'_>,
    code: u16,
    id: u32,
    x: &Value,
    at: &Value,
    count: u32,
) -> Result<Step, Memory>
    ensures { IfOk result (λ s. outcome_seen globals.now state.new s ≡ on_whole ((state_seen globals.now state.old).ids count) (λ n. steps.drawing (state_seen globals.now state.old) id (operations.extracted code x.now at.now n))) }
{
    match globals.value(alloc, state, count)? {
        None => Ok(Step::Stuck),
        Some(n) => {
            let value = extracted(alloc, code, x, at, &n, &mut state.choices)?;
            give_value(state, id, value)
        }
    }
}

/// A bit field put into a word.
pub fn bits_inserted(
    alloc: Global,
    globals: &Globals<'_>,
    state: &mut State<'_>,
    id: u32,
    base: u32,
    insert: u32,
    offset: u32,
    count: u32,
) -> Result<Step, Memory>
    ensures { IfOk result (λ s. outcome_seen globals.now state.new s ≡ on_whole ((state_seen globals.now state.old).ids base) (λ x. on_whole ((state_seen globals.now state.old).ids insert) (λ y. on_whole ((state_seen globals.now state.old).ids offset) (λ at. on_whole ((state_seen globals.now state.old).ids count) (λ n. steps.drawing (state_seen globals.now state.old) id (operations.inserted x y at n)))))) }
{
    match globals.value(alloc, state, base)? {
        None => Ok(Step::Stuck),
        Some(x) => insert_of(alloc, globals, state, id, &x, insert, offset, count),
    }
}

fn insert_of(
    alloc: Global,
    globals: &Globals<'_>,
    state: &mut State<'_>,
    id: u32,
    x: &Value,
    insert: u32,
    offset: u32,
    count: u32,
) -> Result<Step, Memory>
    ensures { IfOk result (λ s. outcome_seen globals.now state.new s ≡ on_whole ((state_seen globals.now state.old).ids insert) (λ y. on_whole ((state_seen globals.now state.old).ids offset) (λ at. on_whole ((state_seen globals.now state.old).ids count) (λ n. steps.drawing (state_seen globals.now state.old) id (operations.inserted x.now y at n))))) }
{
    match globals.value(alloc, state, insert)? {
        None => Ok(Step::Stuck),
        Some(y) => insert_at(alloc, globals, state, id, x, &y, offset, count),
    }
}

fn insert_at(
    alloc: Global,
    globals: &Globals<'_>,
    state: &mut State<'_>,
    id: u32,
    x: &Value,
    y: &Value,
    offset: u32,
    count: u32,
) -> Result<Step, Memory>
    ensures { IfOk result (λ s. outcome_seen globals.now state.new s ≡ on_whole ((state_seen globals.now state.old).ids offset) (λ at. on_whole ((state_seen globals.now state.old).ids count) (λ n. steps.drawing (state_seen globals.now state.old) id (operations.inserted x.now y.now at n)))) }
{
    match globals.value(alloc, state, offset)? {
        None => Ok(Step::Stuck),
        Some(at) => insert_bits(alloc, globals, state, id, x, y, &at, count),
    }
}

fn insert_bits(
    alloc: Global,
    globals: &Globals<'_>,
    state: &mut State<'_>,
    id: u32,
    x: &Value,
    y: &Value,
    at: &Value,
    count: u32,
) -> Result<Step, Memory>
    ensures { IfOk result (λ s. outcome_seen globals.now state.new s ≡ on_whole ((state_seen globals.now state.old).ids count) (λ n. steps.drawing (state_seen globals.now state.old) id (operations.inserted x.now y.now at.now n))) }
{
    match globals.value(alloc, state, count)? {
        None => Ok(Step::Stuck),
        Some(n) => {
            let value = inserted(alloc, x, y, at, &n, &mut state.choices)?;
            give_value(state, id, value)
        }
    }
}

/// Components of the vectors of two ids.
pub fn shuffle(
    alloc: Global,
    globals: &Globals<'_>,
    state: &mut State<'_>,
    id: u32,
    first: u32,
    second: u32,
    positions: &[u32],
) -> Result<Step, Memory>
    ensures { IfOk result (λ s. outcome_seen globals.now state.new s ≡ on_whole ((state_seen globals.now state.old).ids first) (λ a. on_whole ((state_seen globals.now state.old).ids second) (λ b. giving_value (state_seen globals.now state.old) id (operations.shuffled a b positions.now)))) }
{
    match globals.value(alloc, state, first)? {
        None => Ok(Step::Stuck),
        Some(a) => shuffle_with(alloc, globals, state, id, &a, second, positions),
    }
}

fn shuffle_with(
    alloc: Global,
    globals: &Globals<'_>,
    state: &mut State<'_>,
    id: u32,
    a: &Value,
    second: u32,
    positions: &[u32],
) -> Result<Step, Memory>
    ensures { IfOk result (λ s. outcome_seen globals.now state.new s ≡ on_whole ((state_seen globals.now state.old).ids second) (λ b. giving_value (state_seen globals.now state.old) id (operations.shuffled a.now b positions.now))) }
{
    match globals.value(alloc, state, second)? {
        None => Ok(Step::Stuck),
        Some(b) => {
            let value = shuffled(alloc, a, &b, positions)?;
            give_value(state, id, value)
        }
    }
}

/// The part of a composite to which indexes lead.
pub fn take_part(
    alloc: Global,
    globals: &Globals<'_>,
    state: &mut State<'_>,
    id: u32,
    composite: u32,
    indexes: &[u32],
) -> Result<Step, Memory>
    ensures { IfOk result (λ s. outcome_seen globals.now state.new s ≡ on_whole ((state_seen globals.now state.old).ids composite) (λ v. giving_value (state_seen globals.now state.old) id (value_at v indexes.now))) }
{
    match globals.value(alloc, state, composite)? {
        None => Ok(Step::Stuck),
        Some(v) => {
            let value = part_at(alloc, &v, indexes)?;
            give_value(state, id, value)
        }
    }
}

/// A composite with a part where indexes lead.
pub fn put_part(
    alloc: Global,
    globals: &Globals<'_>,
    state: &mut State<'_>,
    id: u32,
    part: u32,
    composite: u32,
    indexes: &[u32],
) -> Result<Step, Memory>
    ensures { IfOk result (λ s. outcome_seen globals.now state.new s ≡ on_whole ((state_seen globals.now state.old).ids part) (λ p. on_whole ((state_seen globals.now state.old).ids composite) (λ v. giving_value (state_seen globals.now state.old) id (with_value_at v indexes.now p)))) }
{
    match globals.value(alloc, state, part)? {
        None => Ok(Step::Stuck),
        Some(p) => put_in(alloc, globals, state, id, p, composite, indexes),
    }
}

fn put_in(
    alloc: Global,
    globals: &Globals<'_>,
    state: &mut State<'_>,
    id: u32,
    p: Value,
    composite: u32,
    indexes: &[u32],
) -> Result<Step, Memory>
    ensures { IfOk result (λ s. outcome_seen globals.now state.new s ≡ on_whole ((state_seen globals.now state.old).ids composite) (λ v. giving_value (state_seen globals.now state.old) id (with_value_at v indexes.now p))) }
{
    match globals.value(alloc, state, composite)? {
        None => Ok(Step::Stuck),
        Some(v) => {
            let mut value = v;
            put(alloc, &mut value, indexes, p);
            give_value(state, id, value)
        }
    }
}

/// The component of a vector at an index, which strays where it is out of bounds.
pub fn pick(
    alloc: Global,
    globals: &Globals<'_>,
    state: &mut State<'_>,
    place: u32,
    id: u32,
    vector: u32,
    index: u32,
) -> Result<Step, Memory>
    ensures { IfOk result (λ s. outcome_seen globals.now state.new s ≡ on_whole ((state_seen globals.now state.old).ids vector) (λ v. on_whole ((state_seen globals.now state.old).ids index) (λ i. steps.picking place (state_seen globals.now state.old) id v (slice_get (parts_in v) (word_of i))))) }
{
    match globals.value(alloc, state, vector)? {
        None => Ok(Step::Stuck),
        Some(v) => pick_in(alloc, globals, state, place, id, &v, index),
    }
}

fn pick_in(
    alloc: Global,
    globals: &Globals<'_>,
    state: &mut State<'_>,
    place: u32,
    id: u32,
    v: &Value,
    index: u32,
) -> Result<Step, Memory>
    ensures { IfOk result (λ s. outcome_seen globals.now state.new s ≡ on_whole ((state_seen globals.now state.old).ids index) (λ i. steps.picking place (state_seen globals.now state.old) id v.now (slice_get (parts_in v.now) (word_of i)))) }
{
    match globals.value(alloc, state, index)? {
        None => Ok(Step::Stuck),
        Some(i) => pick_at(alloc, state, place, id, v, word_in(&i)),
    }
}

fn pick_at(
    alloc: Global,
    state: &mut State<'_>,
    place: u32,
    id: u32,
    v: &Value,
    i: u32,
) -> Result<Step, Memory>
    ensures { IfOk result (λ s. (m : Module) → outcome_seen m state.new s ≡ steps.picking place (state_seen m state.old) id v.now (slice_get (parts_in v.now) i)) }
{
    match parts_of(v).get(i as usize) {
        None => Ok(Step::Strayed(place)),
        Some(component) => {
            let value = copy_value(alloc, component)?;
            give_value(state, id, value)
        }
    }
}

fn is_vector(shape: Shape<'_>) -> bool
    ensures { result ≡ is_vector_shape (shape_seen shape.entry) }
{
    matches!(shape, Shape::Vector { .. })
}

/// A composite of the values of ids.
#[tactic(auto, using(crate::proofs::Valued::on_all_is))]
pub fn construct(
    alloc: Global,
    globals: &Globals<'_>,
    state: &mut State<'_>,
    type_: u32,
    id: u32,
    parts: &[u32],
) -> Result<Step, Memory>
    ensures { IfOk result (λ s. outcome_seen globals.now state.new s ≡ steps.on_all (state_seen globals.now state.old) parts.now (λ vs. giving_value (state_seen globals.now state.old) id (operations.constructed (is_vector_shape (shape_of_type (defined_as globals.now type_))) vs))) }
{
    match all_values(alloc, globals, state, parts)? {
        None => Ok(Step::Stuck),
        Some(values) => {
            let shape = shape_of(globals.decorations().definitions(), type_);
            let value = constructed(alloc, is_vector(shape), values)?;
            give_value(state, id, value)
        }
    }
}

/// An extended instruction.
#[tactic(auto, using(crate::proofs::Valued::on_all_is))]
pub fn extended(
    alloc: Global,
    globals: &Globals<'_>,
    state: &mut State<'_>,
    number: u32,
    id: u32,
    operands: &[u32],
) -> Result<Step, Memory>
    ensures { IfOk result (λ s. outcome_seen globals.now state.new s ≡ steps.on_all (state_seen globals.now state.old) operands.now (λ vs. giving_value (state_seen globals.now state.old) id (operations.extend number vs))) }
{
    match all_values(alloc, globals, state, operands)? {
        None => Ok(Step::Stuck),
        Some(values) => {
            let value = extend(alloc, number, &values)?;
            give_value(state, id, value)
        }
    }
}
