//! The leaves of a type.

ghost use Rattle.std.specs.Prelude.{◌≡◌, ◌∷◌, ◌++◌, [], IfOk, OnOk, map};
ghost use Rattle.gsl_lower_leaves.specs.Leaves as spec;
ghost use Rattle.gsl_lower_leaves.specs.Shaped as shaped;
ghost use Rattle.gsl_lower_places.specs.declared.reached.Part.TheVariants as part;

use crate::leaf::{Leaf, Leaves};
use gsl_base::{List, Memory};
use gsl_lower_places::{Part, Parts};
use gsl_lower_values::Shape;
use gsl_shapes::{Shape as Written, Shapes};
use gsl_types::Ty;
use std::alloc::Global;

fn leaf(alloc: Global, shape: Shape) -> Result<Leaves, Memory>
    ensures { IfOk result (λ l. l ≡ spec.leaf shape) }
{
    let mut all = List::new(alloc);
    all.push(Leaf {
        path: List::new(alloc),
        shape,
    })?;
    Ok(all)
}

fn path_within(alloc: Global, number: u32, path: &[Part]) -> Result<Parts, Memory>
    ensures { IfOk result (λ l. l ≡ part.Fixed number ∷ path.now) }
{
    let mut all = List::from_slice(alloc, &[Part::Fixed(number)])?;
    all.extend_from_slice(path)?;
    Ok(all)
}

/// A leaf of the part of a number.
fn within(alloc: Global, number: u32, one: &Leaf) -> Result<Leaf, Memory>
    ensures { IfOk result (λ l. l ≡ spec.within number one.now) }
{
    let path = path_within(alloc, number, one.path.as_slice())?;
    Ok(Leaf {
        path,
        shape: one.shape,
    })
}

/// The leaves of the part of a number, behind others.
fn put_within(alloc: Global, number: u32, leaves: &[Leaf], all: &mut Leaves) -> Result<(), Memory>
    ensures { OnOk result (all.new ≡ all.old ++ map (spec.within number) leaves.now) }
{
    for k in 0..leaves.len() {
        all.push(within(alloc, number, &leaves[k])?)?;
    }
    Ok(())
}

/// The leaves of so many elements that have these.
fn elements(alloc: Global, count: u32, element: &[Leaf]) -> Result<Leaves, Memory>
    ensures { IfOk result (λ l. l ≡ shaped.elements count element.now) }
{
    let mut all = List::new(alloc);
    for k in 0..count {
        put_within(alloc, k, element, &mut all)?;
    }
    Ok(all)
}

/// A number below 2^32.
fn number_of(k: usize) -> Result<u32, Memory>
    ensures { IfOk result (λ n. n ≡ k) }
{
    if k > u32::MAX as usize {
        return Err(Memory);
    }
    Ok(k as u32)
}

/// The leaves of a type whose structs are written out.
#[cycle(leaves)]
fn leaves_by(alloc: Global, shape: &Written) -> Result<Leaves, Memory>
    ensures { IfOk result (λ l. l ≡ shaped.leaves_by shape.now) }
{
    match shape {
        Written::Void | Written::Runtime(_) => Ok(List::new(alloc)),
        Written::One(s) => leaf(alloc, (*s, 1)),
        Written::Vector(s, n) => leaf(alloc, (*s, *n)),
        Written::Array(element, count) => {
            let one = leaves_by(alloc, element.get())?;
            elements(alloc, *count, one.as_slice())
        }
        Written::Struct(members) => members_leaves(alloc, members.as_slice()),
    }
}

#[cycle(leaves)]
fn members_leaves(alloc: Global, members: &[Written]) -> Result<Leaves, Memory>
    ensures { IfOk result (λ l. l ≡ shaped.members_from 0 (map shaped.leaves_by members.now)) }
{
    let mut all = List::new(alloc);
    for k in 0..members.len() {
        let number = number_of(k)?;
        let one = leaves_by(alloc, &members[k])?;
        put_within(alloc, number, one.as_slice(), &mut all)?;
    }
    Ok(all)
}

/// The scalars and vectors of a type in their order.
pub fn leaves_of(alloc: Global, shapes: &Shapes<'_>, ty: &Ty) -> Result<Leaves, Memory>
    ensures { IfOk result (λ l. l ≡ spec.leaves_of shapes.now ty.now) }
{
    let shape = shapes.shape(alloc, ty)?;
    let leaves = leaves_by(alloc, &shape)?;
    Ok(leaves)
}
