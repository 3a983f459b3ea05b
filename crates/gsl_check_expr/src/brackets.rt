//! Types with their brackets.

ghost use Rattle.std.specs.Prelude.{◌≡◌, drop, IfOk};
ghost use Rattle.gsl_check_expr.specs.Sizes as spec;

use gsl_base::{Boxed, List, Memory, Place};
use gsl_types::Ty;
use std::alloc::Global;

/// The brackets of a type.
#[derive(Debug, Drop)]
pub enum Dimensions {
    Plain,
    /// The place of the first pair, its size, which may be left out, and the sizes behind it.
    Sized(Place, Option<u32>, List<u32>),
}

/// An array of arrays, the outermost size first.
pub(crate) fn arrayed(alloc: Global, sizes: &[u32], element: Ty) -> Result<Ty, Memory>
    ensures { IfOk result (λ t. t ≡ spec.arrayed sizes.now element) }
{
    arrayed_from(alloc, sizes, 0, element)
}

/// An array of arrays by the sizes from a place on.
#[tactic(auto, using(gsl_makers::proofs::Loops::all_dropped))]
fn arrayed_from(alloc: Global, sizes: &[u32], at: usize, element: Ty) -> Result<Ty, Memory>
    ensures { IfOk result (λ t. t ≡ spec.arrayed (drop at sizes.now) element) }
{
    if at >= sizes.len() {
        return Ok(element);
    }
    let inner = arrayed_from(alloc, sizes, at + 1, element)?;
    Ok(Ty::Array(Boxed::new(alloc, inner)?, sizes[at]))
}

/// A type with its brackets, where a size that is left out is this one.
pub fn with_dimensions(
    alloc: Global,
    count: u32,
    dims: &Dimensions,
    element: Ty,
) -> Result<Ty, Memory>
    ensures { IfOk result (λ t. t ≡ spec.with_dimensions count dims.now element) }
{
    match dims {
        Dimensions::Plain => Ok(element),
        Dimensions::Sized(_, Some(size), rest) => {
            let inner = arrayed(alloc, rest.as_slice(), element)?;
            Ok(Ty::Array(Boxed::new(alloc, inner)?, *size))
        }
        Dimensions::Sized(_, None, rest) => {
            let inner = arrayed(alloc, rest.as_slice(), element)?;
            Ok(Ty::Array(Boxed::new(alloc, inner)?, count))
        }
    }
}

/// Whether there are no brackets.
pub fn is_plain_name(dims: &Dimensions) -> bool
    ensures { result ≡ spec.is_plain_name dims.now }
{
    match dims {
        Dimensions::Plain => true,
        Dimensions::Sized(_, _, _) => false,
    }
}
