//! Arrays and structs that have a type already.

ghost use Rattle.std.specs.Prelude.{◌≡◌, IfOk, OnOk};
ghost use Rattle.gsl_lower_types.specs.Known as spec;
ghost use Rattle.gsl_lower_types.specs.Known.{Does};

use gsl_base::Memory;
use gsl_lower_holders::{TypeIds, find_type};
use gsl_spv::{BuildRefusal, Builder};
use gsl_types::Ty;
use gsl_typing::copy;
use std::alloc::Global;

/// A type is known under an id from now on.
pub(crate) fn keep(alloc: Global, known: &mut TypeIds, ty: &Ty, id: u32) -> Result<(), Memory>
    ensures { OnOk result (known.new ≡ spec.with_type ty.now id known.old) }
{
    let ty = copy(alloc, ty)?;
    known.push((ty, id))
}

/// The id of an array or struct that is there.
pub(crate) fn known_type(b: &Builder, known: &TypeIds, ty: &Ty) -> Result<u32, BuildRefusal>
    ensures { Does result b.now known.now (spec.known_type ty.now known.now b.now) }
{
    match find_type(known.as_slice(), ty) {
        Some(id) => Ok(id),
        None => Err(BuildRefusal::Memory),
    }
}

/// A number below 2^32.
pub(crate) fn number_of(k: usize) -> Result<u32, Memory>
    ensures { IfOk result (λ n. n ≡ k) }
{
    if k > u32::MAX as usize {
        return Err(Memory);
    }
    Ok(k as u32)
}
