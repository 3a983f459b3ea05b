//! Copies of declarations.

ghost use Rattle.std.specs.Prelude.{◌≡◌, IfOk};

use gsl_base::{Boxed, Memory};
use gsl_compute::copy_value;
use gsl_types::Ty;
use gsl_values::Value;
use std::alloc::Global;

/// A copy of a type.
pub fn copied(alloc: Global, ty: &Ty) -> Result<Ty, Memory>
    ensures { IfOk result (λ t. t ≡ ty.now) }
{
    match ty {
        Ty::Void => Ok(Ty::Void),
        Ty::One(scalar) => Ok(Ty::One(*scalar)),
        Ty::Vector(scalar, count) => Ok(Ty::Vector(*scalar, *count)),
        Ty::Array(element, count) => {
            let element = copied(alloc, element.get())?;
            Ok(Ty::Array(Boxed::new(alloc, element)?, *count))
        }
        Ty::Runtime(element) => {
            let element = copied(alloc, element.get())?;
            Ok(Ty::Runtime(Boxed::new(alloc, element)?))
        }
        Ty::Struct(number) => Ok(Ty::Struct(*number)),
    }
}

pub fn copied_value(alloc: Global, value: &Option<Value>) -> Result<Option<Value>, Memory>
    ensures { IfOk result (λ v. v ≡ value.now) }
{
    match value {
        None => Ok(None),
        Some(value) => {
            let value = copy_value(alloc, value)?;
            Ok(Some(value))
        }
    }
}
