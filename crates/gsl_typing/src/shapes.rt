//! Scalars and vectors by their scalar type and count of components.

ghost use Rattle.std.specs.Prelude.{◌≡◌};
ghost use Rattle.gsl_tree.specs.Shapes as spec;

use gsl_types::{Scalar, Ty};
use gsl_values::{BinaryOp, UnaryOp};

/// A scalar type, and a count of components.
pub type Shape = (Scalar, u32);

/// The shape of a scalar or vector.
pub fn shape_of(ty: &Ty) -> Option<Shape>
    ensures { result ≡ spec.shape_of ty.now }
{
    match ty {
        Ty::One(scalar) => Some((*scalar, 1)),
        Ty::Vector(scalar, count) => Some((*scalar, *count)),
        _ => None,
    }
}

/// The scalar or vector of a shape.
pub fn of_shape(shape: Shape) -> Ty
    ensures { result ≡ spec.of_shape shape }
{
    if shape.1 == 1 {
        Ty::One(shape.0)
    } else {
        Ty::Vector(shape.0, shape.1)
    }
}

/// Whether a scalar type is `int` or `uint`.
pub fn is_integer(scalar: Scalar) -> bool
    ensures { result ≡ spec.is_integer scalar }
{
    match scalar {
        Scalar::Bool => false,
        Scalar::Int | Scalar::Uint => true,
    }
}

fn when(test: bool, shape: Shape) -> Option<Shape>
    ensures { result ≡ spec.when test shape }
{
    if test { Some(shape) } else { None }
}

fn same_scalar(a: Scalar, b: Scalar) -> bool
    ensures { result ≡ spec.same_scalar a b }
{
    match (a, b) {
        (Scalar::Bool, Scalar::Bool) | (Scalar::Int, Scalar::Int) | (Scalar::Uint, Scalar::Uint) =>
            true,
        _ => false,
    }
}

/// Whether a second operand serves beside a first one: with as many components, or one for each.
fn serves_beside(count: u32, other: u32) -> bool
    ensures { result ≡ spec.serves_beside count other }
{
    other == count || other == 1
}

/// What an operator on one operand gives.
pub(crate) fn unary_shape(op: UnaryOp, a: Shape) -> Option<Shape>
    ensures { result ≡ spec.unary_shape op a }
{
    match op {
        UnaryOp::Negate | UnaryOp::Flip => when(is_integer(a.0), a),
        UnaryOp::Not => when(!is_integer(a.0) && a.1 == 1, a),
    }
}

fn arithmetic_shape(a: Shape, b: Shape) -> Option<Shape>
    ensures { result ≡ spec.arithmetic_shape a b }
{
    let serves = serves_beside(a.1, b.1) || a.1 == 1;
    when(
        is_integer(a.0) && same_scalar(a.0, b.0) && serves,
        (a.0, a.1.max(b.1)),
    )
}

fn shift_shape(a: Shape, b: Shape) -> Option<Shape>
    ensures { result ≡ spec.shift_shape a b }
{
    when(
        is_integer(a.0) && is_integer(b.0) && serves_beside(a.1, b.1),
        a,
    )
}

fn relation_shape(a: Shape, b: Shape) -> Option<Shape>
    ensures { result ≡ spec.relation_shape a b }
{
    when(
        is_integer(a.0) && same_scalar(a.0, b.0) && a.1 == 1 && b.1 == 1,
        (Scalar::Bool, 1),
    )
}

/// What an operator on two operands gives, once they are converted.
pub(crate) fn binary_shape(op: BinaryOp, a: Shape, b: Shape) -> Option<Shape>
    ensures { result ≡ spec.binary_shape op a b }
{
    match op {
        BinaryOp::Add
        | BinaryOp::Sub
        | BinaryOp::Mul
        | BinaryOp::Div
        | BinaryOp::Mod
        | BinaryOp::And
        | BinaryOp::Or
        | BinaryOp::Xor => arithmetic_shape(a, b),
        BinaryOp::Shl | BinaryOp::Shr => shift_shape(a, b),
        BinaryOp::Less | BinaryOp::LessEq | BinaryOp::Greater | BinaryOp::GreaterEq => {
            relation_shape(a, b)
        }
        BinaryOp::Equal | BinaryOp::Unequal => None,
    }
}
