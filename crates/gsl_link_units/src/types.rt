//! Types of many units.

ghost use Rattle.std.specs.Prelude.{◌≡◌, IfOk};
ghost use Rattle.gsl_tree.specs.Shapes.{same_scalar as one_scalar};
ghost use Rattle.gsl_link_units.specs.Types as spec;

use gsl_base::{Boxed, Memory};
use gsl_types::{Scalar, Ty};
use std::alloc::Global;

fn same_scalar(a: Scalar, b: Scalar) -> bool
    ensures { result ≡ one_scalar a b }
{
    match (a, b) {
        (Scalar::Bool, Scalar::Bool) | (Scalar::Int, Scalar::Int) | (Scalar::Uint, Scalar::Uint) =>
            true,
        _ => false,
    }
}

/// Whether two types are one, where their structs are those of one list.
pub fn same_type(a: &Ty, b: &Ty) -> bool
    ensures { result ≡ spec.same_type a.now b.now }
{
    match (a, b) {
        (Ty::Void, Ty::Void) => true,
        (Ty::One(s), Ty::One(t)) => same_scalar(*s, *t),
        (Ty::Vector(s, n), Ty::Vector(t, m)) => n == m && same_scalar(*s, *t),
        (Ty::Array(x, n), Ty::Array(y, m)) => n == m && same_type(x.get(), y.get()),
        (Ty::Runtime(x), Ty::Runtime(y)) => same_type(x.get(), y.get()),
        (Ty::Struct(i), Ty::Struct(j)) => i == j,
        _ => false,
    }
}

/// The new number of what a unit has under a number.
pub fn new_number(numbers: &[u32], number: u32) -> u32
    ensures { result ≡ spec.new_number numbers.now number }
{
    match numbers.get(number as usize) {
        Some(new) => *new,
        None => 0,
    }
}

/// A type with the new numbers of its structs.
pub fn retyped(alloc: Global, numbers: &[u32], ty: &Ty) -> Result<Ty, Memory>
    ensures { IfOk result (λ t. t ≡ spec.retyped numbers.now ty.now) }
{
    match ty {
        Ty::Void => Ok(Ty::Void),
        Ty::One(scalar) => Ok(Ty::One(*scalar)),
        Ty::Vector(scalar, count) => Ok(Ty::Vector(*scalar, *count)),
        Ty::Array(element, count) => {
            let element = retyped(alloc, numbers, element.get())?;
            Ok(Ty::Array(Boxed::new(alloc, element)?, *count))
        }
        Ty::Runtime(element) => {
            let element = retyped(alloc, numbers, element.get())?;
            Ok(Ty::Runtime(Boxed::new(alloc, element)?))
        }
        Ty::Struct(number) => Ok(Ty::Struct(new_number(numbers, *number))),
    }
}
