//! The shapes of arguments, and whether they supply what is wanted.

ghost use Rattle.std.specs.Prelude.{◌≡◌, IfOk};
ghost use Rattle.gsl_tree.specs.Expressions as tree_spec;
ghost use Rattle.gsl_makers.specs.Constructors as spec;

use gsl_base::{List, Memory};
use gsl_typing::{Part, Shape, shape_of};
use std::alloc::Global;

/// The shapes of parts that are all scalars or vectors.
#[tactic(auto, using(crate::proofs::Loops::behind_more, crate::proofs::Loops::behind_none))]
pub(crate) fn shapes_in(alloc: Global, args: &[Part]) -> Result<Option<List<Shape>>, Memory>
    ensures { IfOk result (λ shapes. shapes ≡ tree_spec.shapes_of (spec.exprs_in args.now)) }
{
    let mut shapes = List::new(alloc);
    for k in 0..args.len() {
        match shape_of(&args[k].expr.ty) {
            Some(shape) => shapes.push(shape)?,
            None => return Ok(None),
        }
    }
    Ok(Some(shapes))
}

/// Whether there is one shape.
pub(crate) fn is_one(shapes: &Option<List<Shape>>) -> bool
    ensures { result ≡ spec.is_one shapes.now }
{
    match shapes {
        Some(shapes) => shapes.len() == 1,
        None => false,
    }
}

/// Whether there is one shape, that of a scalar.
fn is_one_scalar(shapes: &[Shape]) -> bool
    ensures { result ≡ tree_spec.is_one_scalar shapes.now }
{
    shapes.len() == 1 && shapes[0].1 == 1
}

/// Whether arguments in a row supply the components that are wanted: none too few, and no argument that is not used at all.
fn supplies(wanted: u32, shapes: &[Shape]) -> bool
    ensures { result ≡ tree_spec.supplies wanted shapes.now }
{
    let mut left = wanted;
    for k in 0..shapes.len() {
        if left == 0 {
            return false;
        }
        left = left.saturating_sub(shapes[k].1);
    }
    left == 0
}

/// Whether shapes supply so many components: one scalar fills them all.
pub(crate) fn supply(wanted: u32, shapes: &Option<List<Shape>>) -> bool
    ensures { result ≡ spec.supply wanted shapes.now }
{
    match shapes {
        Some(shapes) => { is_one_scalar(shapes.as_slice()) || supplies(wanted, shapes.as_slice()) }
        None => false,
    }
}
