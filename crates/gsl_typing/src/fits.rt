//! To which types operators convert their operands, and which types they give.

ghost use Rattle.std.specs.Prelude.{◌≡◌};
ghost use Rattle.gsl_typing.specs.Fitting as spec;

use crate::shapes::{Shape, binary_shape, of_shape, shape_of, unary_shape};
use gsl_types::{Scalar, Ty};
use gsl_values::{BinaryOp, UnaryOp};

/// What an operator does with operands that fit: the types to which it converts them, and the type that it gives.
#[derive(Debug, Drop)]
pub struct Fitting {
    pub left: Ty,
    pub right: Ty,
    pub result: Ty,
}

fn is_shift(op: BinaryOp) -> bool
    ensures { result ≡ spec.is_shift op }
{
    op == BinaryOp::Shl || op == BinaryOp::Shr
}

/// The scalar type as which both of two may serve.
fn common_scalar(s: Scalar, t: Scalar) -> Option<Scalar>
    ensures { result ≡ spec.common_scalar s t }
{
    match (s, t) {
        (Scalar::Bool, Scalar::Bool) => Some(Scalar::Bool),
        (Scalar::Int, Scalar::Int) => Some(Scalar::Int),
        (Scalar::Int | Scalar::Uint, Scalar::Uint) | (Scalar::Uint, Scalar::Int) => {
            Some(Scalar::Uint)
        }
        _ => None,
    }
}

fn fitting_with(a: Shape, b: Shape, given: Option<Shape>) -> Option<Fitting>
    ensures { result ≡ spec.fitting_with a b given }
{
    match given {
        Some(shape) => Some(Fitting {
            left: of_shape(a),
            right: of_shape(b),
            result: of_shape(shape),
        }),
        None => None,
    }
}

fn fitting_shapes(op: BinaryOp, a: Shape, b: Shape) -> Option<Fitting>
    ensures { result ≡ spec.fitting_shapes op a b }
{
    if is_shift(op) {
        return fitting_with(a, b, binary_shape(op, a, b));
    }
    match common_scalar(a.0, b.0) {
        Some(s) => fitting_with((s, a.1), (s, b.1), binary_shape(op, (s, a.1), (s, b.1))),
        None => None,
    }
}

/// To which types an operator converts operands of these types, and which type it gives; none where they do not fit. Equality
/// has a rule of its own and is none here.
#[tactic(auto, unfolding(crate::specs::Fitting::fitting))]
pub fn fitted(op: BinaryOp, a: &Ty, b: &Ty) -> Option<Fitting>
    ensures { result ≡ spec.fitting op a.now b.now }
{
    match (shape_of(a), shape_of(b)) {
        (Some(x), Some(y)) => fitting_shapes(op, x, y),
        _ => None,
    }
}

/// Which type an operator on one operand of a type gives; none where the operand does not fit.
#[tactic(auto, unfolding(crate::specs::Fitting::unary_type))]
pub fn unary_type(op: UnaryOp, a: &Ty) -> Option<Ty>
    ensures { result ≡ spec.unary_type op a.now }
{
    match shape_of(a) {
        Some(shape) => typed_shape(unary_shape(op, shape)),
        None => None,
    }
}

fn typed_shape(shape: Option<Shape>) -> Option<Ty>
    ensures { result ≡ spec.typed_shape shape }
{
    match shape {
        Some(shape) => Some(of_shape(shape)),
        None => None,
    }
}
