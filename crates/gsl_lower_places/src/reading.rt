//! What is read.

ghost use Rattle.std.specs.Prelude.{◌≡◌, ◌∷◌, ◌++◌, [], IfOk, map, None, Some};
ghost use Rattle.gsl_lower_values.specs.Building.{Does};
ghost use Rattle.gsl_lower_values.specs.Constructors.{operand as operand_of};
ghost use Rattle.gsl_lower_places.specs.Reading as spec;

use crate::pointers::{index, pointer};
use crate::reached::{Base, Part, Parts, Picked, Reached, stored_shape};
use gsl_base::{List, Memory};
use gsl_instr::op;
use gsl_lower_values::{Operand, Shape, converted, give, picked, type_of};
use gsl_spv::{BuildRefusal, Builder};
use gsl_types::Scalar;
use gsl_words::Args;
use std::alloc::Global;

pub(crate) fn operand(shape: Shape, id: u32) -> Operand
    ensures { result ≡ operand_of shape id }
{
    Operand { shape, id }
}

/// The scalar or vector to which parts of a variable lead.
#[tactic(auto, unfolding(crate::specs::Reading::loaded))]
pub fn loaded(
    alloc: Global,
    b: &mut Builder,
    id: u32,
    class: u32,
    shape: Shape,
    parts: &[Part],
) -> Result<u32, BuildRefusal>
    ensures { Does result b.new (spec.loaded id class shape parts.now b.old) }
{
    let stored = stored_shape(class, shape);
    let ty = type_of(b, stored)?;
    let from = pointer(alloc, b, id, class, ty, parts)?;
    let v = give(alloc, b, op::LOAD, &[from], ty)?;
    converted(alloc, b, shape.0, operand(stored, v))
}

/// Parts, and one within them.
pub(crate) fn with_part(alloc: Global, parts: &[Part], part: Part) -> Result<Parts, Memory>
    ensures { IfOk result (λ l. l ≡ parts.now ++ part ∷ []) }
{
    let mut all = List::from_slice(alloc, parts)?;
    all.push(part)?;
    Ok(all)
}

/// What is picked of a vector in a variable: one component alone is loaded alone.
fn loaded_vector(
    alloc: Global,
    b: &mut Builder,
    id: u32,
    class: u32,
    shape: Shape,
    positions: &[u32],
    parts: &[Part],
) -> Result<u32, BuildRefusal>
    ensures { Does result b.new (spec.loaded_vector id class shape positions.now parts.now b.old) }
{
    match positions {
        [position] => {
            let all = with_part(alloc, parts, Part::Fixed(*position))?;
            loaded(alloc, b, id, class, (shape.0, 1), all.as_slice())
        }
        _ => {
            let v = loaded(alloc, b, id, class, shape, parts)?;
            picked(alloc, b, operand(shape, v), positions)
        }
    }
}

fn loaded_scalar(
    alloc: Global,
    b: &mut Builder,
    id: u32,
    class: u32,
    s: Scalar,
    positions: &[u32],
    parts: &[Part],
) -> Result<u32, BuildRefusal>
    ensures { Does result b.new (spec.loaded_scalar id class s positions.now parts.now b.old) }
{
    let v = loaded(alloc, b, id, class, (s, 1), parts)?;
    picked(alloc, b, operand((s, 1), v), positions)
}

/// What is picked of what parts of a variable lead to.
#[tactic(auto, unfolding(crate::specs::Reading::loaded_picked))]
fn loaded_picked(
    alloc: Global,
    b: &mut Builder,
    id: u32,
    class: u32,
    parts: &[Part],
    p: &Picked,
) -> Result<u32, BuildRefusal>
    ensures { Does result b.new (spec.loaded_picked id class parts.now p.now b.old) }
{
    let positions = p.positions.as_slice();
    if p.shape.1 == 1 {
        return loaded_scalar(alloc, b, id, class, p.shape.0, positions, parts);
    }
    match p.by {
        None => loaded_vector(alloc, b, id, class, p.shape, positions, parts),
        Some(by) => {
            let all = with_part(alloc, parts, by)?;
            loaded_scalar(alloc, b, id, class, p.shape.0, positions, all.as_slice())
        }
    }
}

fn read_variable(
    alloc: Global,
    b: &mut Builder,
    id: u32,
    class: u32,
    parts: &[Part],
    shape: Shape,
    p: &Option<Picked>,
) -> Result<u32, BuildRefusal>
    ensures { Does result b.new (spec.read_variable id class parts.now shape p.now b.old) }
{
    match p {
        None => loaded(alloc, b, id, class, shape, parts),
        Some(p) => loaded_picked(alloc, b, id, class, parts, p),
    }
}

fn number_in(part: Part) -> u32
    ensures { result ≡ spec.number_in part }
{
    match part {
        Part::Fixed(number) => number,
        Part::By(_, _) => 0,
    }
}

/// An id, and the numbers of parts.
fn numbers(alloc: Global, id: u32, parts: &[Part]) -> Result<Args, Memory>
    ensures { IfOk result (λ l. l ≡ id ∷ map spec.number_in parts.now) }
{
    let mut all = List::from_slice(alloc, &[id])?;
    for k in 0..parts.len() {
        all.push(number_in(parts[k]))?;
    }
    Ok(all)
}

/// The part of a value that known numbers lead to, by the id of its type.
#[tactic(auto, unfolding(crate::specs::Reading::extracted))]
pub fn extracted(
    alloc: Global,
    b: &mut Builder,
    id: u32,
    ty: u32,
    parts: &[Part],
) -> Result<u32, BuildRefusal>
    ensures { Does result b.new (spec.extracted id ty parts.now b.old) }
{
    if parts.is_empty() {
        return Ok(id);
    }
    let args = numbers(alloc, id, parts)?;
    give(alloc, b, op::COMPOSITE_EXTRACT, args.as_slice(), ty)
}

fn extracted_shape(
    alloc: Global,
    b: &mut Builder,
    id: u32,
    shape: Shape,
    parts: &[Part],
) -> Result<u32, BuildRefusal>
    ensures { Does result b.new (spec.extracted_shape id shape parts.now b.old) }
{
    let ty = type_of(b, shape)?;
    extracted(alloc, b, id, ty, parts)
}

/// What is picked of a vector by a word that an id stands for.
fn component_by(
    alloc: Global,
    b: &mut Builder,
    shape: Shape,
    id: u32,
    by: Part,
    positions: &[u32],
) -> Result<u32, BuildRefusal>
    ensures { Does result b.new (spec.component_by shape id by positions.now b.old) }
{
    let at = index(b, by)?;
    let ty = type_of(b, (shape.0, 1))?;
    let v = give(alloc, b, op::VECTOR_EXTRACT_DYNAMIC, &[id, at], ty)?;
    picked(alloc, b, operand((shape.0, 1), v), positions)
}

fn picked_by(
    alloc: Global,
    b: &mut Builder,
    shape: Shape,
    id: u32,
    by: Option<Part>,
    positions: &[u32],
) -> Result<u32, BuildRefusal>
    ensures { Does result b.new (spec.picked_by shape id by positions.now b.old) }
{
    match by {
        None => picked(alloc, b, operand(shape, id), positions),
        Some(by) => component_by(alloc, b, shape, id, by, positions),
    }
}

fn extracted_picked(
    alloc: Global,
    b: &mut Builder,
    id: u32,
    parts: &[Part],
    p: &Picked,
) -> Result<u32, BuildRefusal>
    ensures { Does result b.new (spec.extracted_picked id parts.now p.now b.old) }
{
    let v = extracted_shape(alloc, b, id, p.shape, parts)?;
    let positions = p.positions.as_slice();
    if p.shape.1 == 1 {
        return picked(alloc, b, operand(p.shape, v), positions);
    }
    picked_by(alloc, b, p.shape, v, p.by, positions)
}

fn read_value(
    alloc: Global,
    b: &mut Builder,
    id: u32,
    parts: &[Part],
    shape: Shape,
    p: &Option<Picked>,
) -> Result<u32, BuildRefusal>
    ensures { Does result b.new (spec.read_value id parts.now shape p.now b.old) }
{
    match p {
        None => extracted_shape(alloc, b, id, shape, parts),
        Some(p) => extracted_picked(alloc, b, id, parts, p),
    }
}

/// The value of a shape that is read where an expression leads.
#[tactic(auto, unfolding(crate::specs::Reading::read))]
pub fn read(
    alloc: Global,
    b: &mut Builder,
    shape: Shape,
    reached: &Reached,
) -> Result<u32, BuildRefusal>
    ensures { Does result b.new (spec.read shape reached.now b.old) }
{
    let parts = reached.path.as_slice();
    match reached.base {
        Base::Variable(id, class) => read_variable(
            alloc,
            b,
            id,
            class,
            parts,
            shape,
            &reached.picked,
        ),
        Base::Value(id, _) => read_value(alloc, b, id, parts, shape, &reached.picked),
    }
}
