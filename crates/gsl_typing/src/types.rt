//! Types as values, and values where a type is needed.

ghost use Rattle.std.specs.Prelude.{◌≡◌, IfOk};
ghost use Rattle.gsl_tree.specs.Trees.{typed, place_of};
ghost use Rattle.gsl_tree.specs.declared.expr.ExprKind.TheVariants as kind;
ghost use Rattle.gsl_typing.specs.Conversions as spec;

use gsl_base::{Boxed, Memory};
use gsl_overload::identical;
use gsl_tree::{Expr, ExprKind};
use gsl_types::{Ty, converts};
use std::alloc::Global;

/// A copy of a type. Structs are shared by their number, so it takes the time of the type as it is written.
pub fn copy(alloc: Global, ty: &Ty) -> Result<Ty, Memory>
    ensures { IfOk result (λ t. t ≡ ty.now) }
{
    match ty {
        Ty::Void => Ok(Ty::Void),
        Ty::One(scalar) => Ok(Ty::One(*scalar)),
        Ty::Vector(scalar, count) => Ok(Ty::Vector(*scalar, *count)),
        Ty::Array(element, count) => Ok(Ty::Array(
            Boxed::new(alloc, copy(alloc, element.get())?)?,
            *count,
        )),
        Ty::Runtime(element) => Ok(Ty::Runtime(Boxed::new(alloc, copy(alloc, element.get())?)?)),
        Ty::Struct(number) => Ok(Ty::Struct(*number)),
    }
}

/// Whether a value of one type may stand where another is needed.
#[tactic(auto, unfolding(crate::specs::Conversions::serves_as))]
pub fn serves_as(from: &Ty, to: &Ty) -> bool
    ensures { result ≡ spec.serves_as from.now to.now }
{
    identical(from, to) || converts(from, to)
}

/// The type that two operands have in common: that of one of them, where the other may stand.
#[tactic(auto, unfolding(crate::specs::Conversions::common))]
pub fn common(alloc: Global, a: &Ty, b: &Ty) -> Result<Option<Ty>, Memory>
    ensures { IfOk result (λ t. t ≡ spec.common a.now b.now) }
{
    if serves_as(a, b) {
        Ok(Some(copy(alloc, b)?))
    } else if serves_as(b, a) {
        Ok(Some(copy(alloc, a)?))
    } else {
        Ok(None)
    }
}

/// An expression where one of a type is needed: itself, or converted.
#[tactic(auto, unfolding(crate::specs::Conversions::as_type))]
pub fn as_type(alloc: Global, ty: &Ty, e: Expr) -> Result<Expr, Memory>
    ensures { IfOk result (λ x. x ≡ spec.as_type ty.now e) }
{
    if identical(&e.ty, ty) {
        return Ok(e);
    }
    match copy(alloc, ty) {
        Ok(ty) => convert(alloc, ty, e),
        Err(memory) => {
            drop(e);
            Err(memory)
        }
    }
}

fn convert(alloc: Global, ty: Ty, e: Expr) -> Result<Expr, Memory>
    ensures { IfOk result (λ x. x ≡ typed (place_of e) ty (kind.Convert e)) }
{
    let place = e.place;
    let kind = ExprKind::Convert(Boxed::new(alloc, e)?);
    Ok(Expr { ty, place, kind })
}
