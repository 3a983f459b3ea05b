//! What is stored.

ghost use Rattle.std.specs.Prelude.{◌≡◌, ◌<◌, Some, length, slice_get};
ghost use Rattle.gsl_lower_values.specs.Building.{Does};
ghost use Rattle.gsl_lower_places.specs.Writing as spec;

use crate::pointers::pointer;
use crate::reached::{Base, Part, Picked, Reached, count_of, stored_shape};
use crate::reading::{operand, with_part};
use gsl_instr::op;
use gsl_lower_values::{Operand, Shape, converted, picked, type_of};
use gsl_spv::{BuildRefusal, Builder};
use std::alloc::Global;

/// A value in the shape in which it lies in a class.
#[tactic(auto, unfolding(crate::specs::Writing::in_class))]
fn in_class(
    alloc: Global,
    b: &mut Builder,
    class: u32,
    shape: Shape,
    v: u32,
) -> Result<u32, BuildRefusal>
    ensures { Does result b.new (spec.in_class class shape v b.old) }
{
    converted(alloc, b, stored_shape(class, shape).0, operand(shape, v))
}

/// A scalar or vector is stored where parts of a variable lead.
#[tactic(auto, unfolding(crate::specs::Writing::put_at))]
pub fn put_at(
    alloc: Global,
    b: &mut Builder,
    id: u32,
    class: u32,
    shape: Shape,
    parts: &[Part],
    v: u32,
) -> Result<(), BuildRefusal>
    ensures { Does result b.new (spec.put_at id class shape parts.now v b.old) }
{
    let word = in_class(alloc, b, class, shape, v)?;
    let ty = type_of(b, stored_shape(class, shape))?;
    let to = pointer(alloc, b, id, class, ty, parts)?;
    b.put(op::STORE, &[to, word])
}

/// The component of a number of a value is stored at a position of a vector, by a pointer of its own.
#[tactic(auto, unfolding(crate::specs::Writing::one_at))]
fn one_at(
    alloc: Global,
    b: &mut Builder,
    id: u32,
    class: u32,
    parts: &[Part],
    v: Operand,
    number: u32,
    position: u32,
) -> Result<(), BuildRefusal>
    ensures { Does result b.new (spec.one_at id class parts.now v number position b.old) }
{
    let word = picked(alloc, b, v, &[number])?;
    let all = with_part(alloc, parts, Part::Fixed(position))?;
    put_at(alloc, b, id, class, (v.shape.0, 1), all.as_slice(), word)
}

/// A position by its place.
fn position_by_place(positions: &[u32], place: u32) -> u32
    requires { place < length positions.now }
    ensures { slice_get positions.now place ≡ Some result }
{
    positions[place as usize]
}

/// Several components of a vector are stored one by one: the vector is not read, which may not be allowed, and its others are not touched.
fn each_at(
    alloc: Global,
    b: &mut Builder,
    id: u32,
    class: u32,
    shape: Shape,
    positions: &[u32],
    parts: &[Part],
    v: u32,
) -> Result<(), BuildRefusal>
    ensures { Does result b.new (spec.each_at id class shape positions.now parts.now v b.old) }
{
    let count = count_of(positions)?;
    let of = operand((shape.0, count), v);
    for k in 0..count {
        one_at(
            alloc,
            b,
            id,
            class,
            parts,
            of,
            k,
            position_by_place(positions, k),
        )?;
    }
    Ok(())
}

/// What is picked of what parts of a variable lead to is stored.
#[tactic(auto, unfolding(crate::specs::Writing::put_picked))]
fn put_picked(
    alloc: Global,
    b: &mut Builder,
    id: u32,
    class: u32,
    parts: &[Part],
    v: u32,
    p: &Picked,
) -> Result<(), BuildRefusal>
    ensures { Does result b.new (spec.put_picked id class parts.now v p.now b.old) }
{
    if p.shape.1 == 1 {
        return put_at(alloc, b, id, class, p.shape, parts, v);
    }
    match p.by {
        None => each_at(
            alloc,
            b,
            id,
            class,
            p.shape,
            p.positions.as_slice(),
            parts,
            v,
        ),
        Some(by) => {
            let all = with_part(alloc, parts, by)?;
            put_at(alloc, b, id, class, (p.shape.0, 1), all.as_slice(), v)
        }
    }
}

fn put_variable(
    alloc: Global,
    b: &mut Builder,
    id: u32,
    class: u32,
    parts: &[Part],
    shape: Shape,
    v: u32,
    p: &Option<Picked>,
) -> Result<(), BuildRefusal>
    ensures { Does result b.new (spec.put_variable id class parts.now shape v p.now b.old) }
{
    match p {
        None => put_at(alloc, b, id, class, shape, parts, v),
        Some(p) => put_picked(alloc, b, id, class, parts, v, p),
    }
}

/// A value of a shape, by its id, is stored where an expression leads. Nothing is stored in what is no variable.
#[tactic(auto, unfolding(crate::specs::Writing::stored))]
pub fn stored(
    alloc: Global,
    b: &mut Builder,
    shape: Shape,
    reached: &Reached,
    v: u32,
) -> Result<(), BuildRefusal>
    ensures { Does result b.new (spec.stored shape reached.now v b.old) }
{
    let parts = reached.path.as_slice();
    match reached.base {
        Base::Variable(id, class) => {
            put_variable(alloc, b, id, class, parts, shape, v, &reached.picked)
        }
        Base::Value(_, _) => Ok(()),
    }
}
