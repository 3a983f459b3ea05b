//! Types as they are written.

ghost use Rattle.std.specs.Prelude.{◌≡◌, IfOk, Some};
ghost use Rattle.gsl_base.specs.Checked.{Gives};
ghost use Rattle.gsl_check_expr.specs.Callees as callees;
ghost use Rattle.gsl_check_expr.specs.Written as spec;

use crate::brackets::{Dimensions, arrayed};
use crate::callees::basic_type;
use crate::env::Env;
use gsl_base::{Boxed, Code, Memory, Place, Refusal, Text};
use gsl_names::Entry;
use gsl_syntax::Basic;
use gsl_types::Ty;
use gsl_typing::{copy, refuse};
use std::alloc::Global;

/// A type as it is written.
#[derive(Debug, Drop)]
pub enum Written {
    /// A type with all of its sizes.
    Whole(Ty),
    /// An array of these elements whose size is left out, with the place of its `[`.
    Open(Place, Ty),
}

/// An array of a size, or one whose size is left out.
fn array_of(alloc: Global, place: Place, size: Option<u32>, element: Ty) -> Result<Written, Memory>
    ensures { IfOk result (λ w. w ≡ spec.array_of place size element) }
{
    match size {
        Some(size) => Ok(Written::Whole(Ty::Array(Boxed::new(alloc, element)?, size))),
        None => Ok(Written::Open(place, element)),
    }
}

/// A type with its brackets, the first of which is the outermost.
pub(crate) fn bracketed(alloc: Global, dims: &Dimensions, ty: Ty) -> Result<Written, Memory>
    ensures { IfOk result (λ w. w ≡ spec.bracketed dims.now ty) }
{
    match dims {
        Dimensions::Plain => Ok(Written::Whole(ty)),
        Dimensions::Sized(place, size, rest) => {
            let element = arrayed(alloc, rest.as_slice(), ty)?;
            array_of(alloc, *place, *size, element)
        }
    }
}

/// The struct that a name stands for.
#[tactic(auto, unfolding(crate::specs::Written::base_type))]
pub(crate) fn struct_type(env: &Env, place: Place, name: &Text) -> Result<Ty, Refusal>
    ensures { Gives result (spec.base_type env.now place (callees.Name name.now)) }
{
    match env.names.find(name) {
        Some(Entry::Struct(number)) => Ok(Ty::Struct(number)),
        Some(_) => Err(refuse(place, Code::E0402)),
        None => Err(refuse(place, Code::E0401)),
    }
}

/// A copy of a type as it is written.
fn copied(alloc: Global, base: &Written) -> Result<Written, Memory>
    ensures { IfOk result (λ w. w ≡ base.now) }
{
    match base {
        Written::Whole(ty) => Ok(Written::Whole(copy(alloc, ty)?)),
        Written::Open(place, element) => Ok(Written::Open(*place, copy(alloc, element)?)),
    }
}

/// A type with the brackets behind a declared name around it.
pub(crate) fn named_by(alloc: Global, dims: &Dimensions, base: &Written) -> Result<Written, Refusal>
    ensures { Gives result (spec.named_by dims.now base.now) }
{
    match (dims, base) {
        (Dimensions::Plain, _) => Ok(copied(alloc, base)?),
        (Dimensions::Sized(_, _, _), Written::Whole(ty)) => {
            let ty = copy(alloc, ty)?;
            Ok(bracketed(alloc, dims, ty)?)
        }
        (Dimensions::Sized(_, _, _), Written::Open(place, _)) => Err(refuse(*place, Code::E0603)),
    }
}

/// A type with all of its sizes; one that is left out is `E0603` at its `[`.
#[tactic(auto, unfolding(crate::specs::Written::whole_type))]
pub fn whole_type(ty: Written) -> Result<Ty, Refusal>
    ensures { Gives result (spec.whole_type ty) }
{
    match ty {
        Written::Whole(ty) => Ok(ty),
        Written::Open(place, _) => Err(refuse(place, Code::E0603)),
    }
}
