//! What nodes hold: expressions in boxes, and what is given up where there is no node.

ghost use Rattle.std.specs.Prelude.{◌≡◌, IfOk};
ghost use Rattle.gsl_typing.specs.Conversions.{as_type};

use crate::scene::Part;
use crate::types::as_type;
use gsl_base::{Boxed, Memory};
use gsl_tree::Expr;
use gsl_types::Ty;
use std::alloc::Global;

/// Gives up a part.
pub(crate) fn give_up(part: Part) {
    let Part { expr, .. } = part;
    drop(expr);
}

/// Gives up two parts.
pub(crate) fn give_up_both(a: Part, b: Part) {
    give_up(a);
    give_up(b);
}

/// Two expressions in boxes.
pub(crate) fn boxed_both(
    alloc: Global,
    a: Expr,
    b: Expr,
) -> Result<(Boxed<Expr>, Boxed<Expr>), Memory>
    ensures { IfOk result (λ both. both ≡ (a, b)) }
{
    let a = Boxed::new(alloc, a)?;
    let b = Boxed::new(alloc, b)?;
    Ok((a, b))
}

/// An expression, and a second one as a type.
pub(crate) fn second_as(
    alloc: Global,
    ty: &Ty,
    a: Expr,
    b: Expr,
) -> Result<(Boxed<Expr>, Boxed<Expr>), Memory>
    ensures { IfOk result (λ both. both ≡ (a, as_type ty.now b)) }
{
    match as_type(alloc, ty, b) {
        Ok(b) => boxed_both(alloc, a, b),
        Err(memory) => {
            drop(a);
            Err(memory)
        }
    }
}

/// Two expressions, each as a type.
pub(crate) fn both_as(
    alloc: Global,
    left: &Ty,
    right: &Ty,
    a: Expr,
    b: Expr,
) -> Result<(Boxed<Expr>, Boxed<Expr>), Memory>
    ensures { IfOk result (λ both. both ≡ (as_type left.now a, as_type right.now b)) }
{
    match as_type(alloc, left, a) {
        Ok(a) => second_as(alloc, right, a, b),
        Err(memory) => {
            drop(b);
            Err(memory)
        }
    }
}
