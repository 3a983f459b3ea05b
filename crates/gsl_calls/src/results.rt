//! Which type a built-in function gives.

ghost use Rattle.std.specs.Prelude.{◌≡◌};
ghost use Rattle.gsl_tree.specs.Shapes as spec;
ghost use Rattle.gsl_values.specs.declared.function.Builtin.TheVariants as f;

use gsl_types::Scalar;
use gsl_typing::{Shape, is_integer};
use gsl_values::Builtin;

const FLAG: Shape = (Scalar::Bool, 1);

fn when(test: bool, shape: Shape) -> Option<Shape>
    ensures { result ≡ spec.when test shape }
{
    if test { Some(shape) } else { None }
}

fn is_boolean(scalar: Scalar) -> bool
    ensures { result ≡ spec.is_boolean scalar }
{
    match scalar {
        Scalar::Bool => true,
        Scalar::Int | Scalar::Uint => false,
    }
}

fn is_int(scalar: Scalar) -> bool
    ensures { result ≡ spec.is_int scalar }
{
    match scalar {
        Scalar::Int => true,
        Scalar::Bool | Scalar::Uint => false,
    }
}

fn same_scalar(a: Scalar, b: Scalar) -> bool
    ensures { result ≡ spec.same_scalar a b }
{
    match (a, b) {
        (Scalar::Bool, Scalar::Bool) | (Scalar::Int, Scalar::Int) | (Scalar::Uint, Scalar::Uint) =>
            true,
        _ => false,
    }
}

fn same_shape(a: Shape, b: Shape) -> bool
    ensures { result ≡ spec.same_shape a b }
{
    same_scalar(a.0, b.0) && a.1 == b.1
}

fn serves_beside(count: u32, other: u32) -> bool
    ensures { result ≡ spec.serves_beside count other }
{
    other == count || other == 1
}

fn is_vector(a: Shape) -> bool
    ensures { result ≡ spec.is_vector a }
{
    a.1 >= 2
}

fn is_count(a: Shape) -> bool
    ensures { result ≡ spec.is_count a }
{
    is_int(a.0) && a.1 == 1
}

fn built_one(which: Builtin, a: Shape) -> Option<Shape>
    ensures { result ≡ spec.built_one which a }
{
    match which {
        Builtin::Abs | Builtin::Sign => when(is_int(a.0), a),
        Builtin::Any | Builtin::All => when(is_boolean(a.0) && is_vector(a), FLAG),
        Builtin::Not => when(is_boolean(a.0) && is_vector(a), a),
        Builtin::BitCount | Builtin::FindLsb | Builtin::FindMsb => {
            when(is_integer(a.0), (Scalar::Int, a.1))
        }
        Builtin::BitfieldReverse => when(is_integer(a.0), a),
        Builtin::Min
        | Builtin::Max
        | Builtin::Clamp
        | Builtin::Mix
        | Builtin::LessThan
        | Builtin::LessThanEqual
        | Builtin::GreaterThan
        | Builtin::GreaterThanEqual
        | Builtin::Equal
        | Builtin::NotEqual
        | Builtin::BitfieldExtract
        | Builtin::BitfieldInsert => None,
    }
}

fn bounded_shape(a: Shape, b: Shape) -> Option<Shape>
    ensures { result ≡ spec.bounded_shape a b }
{
    when(
        is_integer(a.0) && same_scalar(a.0, b.0) && serves_beside(a.1, b.1),
        a,
    )
}

fn compared_shape(a: Shape, b: Shape) -> Option<Shape>
    ensures { result ≡ spec.compared_shape a b }
{
    when(
        is_integer(a.0) && same_shape(a, b) && is_vector(a),
        (Scalar::Bool, a.1),
    )
}

fn matched_shape(a: Shape, b: Shape) -> Option<Shape>
    ensures { result ≡ spec.matched_shape a b }
{
    when(same_shape(a, b) && is_vector(a), (Scalar::Bool, a.1))
}

fn built_two(which: Builtin, a: Shape, b: Shape) -> Option<Shape>
    ensures { result ≡ spec.built_two which a b }
{
    match which {
        Builtin::Min | Builtin::Max => bounded_shape(a, b),
        Builtin::LessThan
        | Builtin::LessThanEqual
        | Builtin::GreaterThan
        | Builtin::GreaterThanEqual => compared_shape(a, b),
        Builtin::Equal | Builtin::NotEqual => matched_shape(a, b),
        Builtin::Abs
        | Builtin::Sign
        | Builtin::Clamp
        | Builtin::Mix
        | Builtin::Any
        | Builtin::All
        | Builtin::Not
        | Builtin::BitCount
        | Builtin::FindLsb
        | Builtin::FindMsb
        | Builtin::BitfieldReverse
        | Builtin::BitfieldExtract
        | Builtin::BitfieldInsert => None,
    }
}

fn clamp_shape(a: Shape, b: Shape, c: Shape) -> Option<Shape>
    ensures { result ≡ spec.built_three f.Clamp a b c }
{
    when(
        is_integer(a.0) && same_scalar(a.0, b.0) && same_shape(b, c) && serves_beside(a.1, b.1),
        a,
    )
}

fn mix_shape(a: Shape, b: Shape, c: Shape) -> Option<Shape>
    ensures { result ≡ spec.built_three f.Mix a b c }
{
    when(same_shape(a, b) && is_boolean(c.0) && c.1 == a.1, a)
}

fn extract_shape(a: Shape, b: Shape, c: Shape) -> Option<Shape>
    ensures { result ≡ spec.built_three f.BitfieldExtract a b c }
{
    when(is_integer(a.0) && is_count(b) && is_count(c), a)
}

fn built_three(which: Builtin, a: Shape, b: Shape, c: Shape) -> Option<Shape>
    ensures { result ≡ spec.built_three which a b c }
{
    match which {
        Builtin::Clamp => clamp_shape(a, b, c),
        Builtin::Mix => mix_shape(a, b, c),
        Builtin::BitfieldExtract => extract_shape(a, b, c),
        Builtin::Abs
        | Builtin::Sign
        | Builtin::Min
        | Builtin::Max
        | Builtin::LessThan
        | Builtin::LessThanEqual
        | Builtin::GreaterThan
        | Builtin::GreaterThanEqual
        | Builtin::Equal
        | Builtin::NotEqual
        | Builtin::Any
        | Builtin::All
        | Builtin::Not
        | Builtin::BitCount
        | Builtin::FindLsb
        | Builtin::FindMsb
        | Builtin::BitfieldReverse
        | Builtin::BitfieldInsert => None,
    }
}

fn built_four(which: Builtin, a: Shape, b: Shape, c: Shape, d: Shape) -> Option<Shape>
    ensures { result ≡ spec.built_four which a b c d }
{
    match which {
        Builtin::BitfieldInsert => when(
            is_integer(a.0) && same_shape(a, b) && is_count(c) && is_count(d),
            a,
        ),
        Builtin::Abs
        | Builtin::Sign
        | Builtin::Min
        | Builtin::Max
        | Builtin::Clamp
        | Builtin::Mix
        | Builtin::LessThan
        | Builtin::LessThanEqual
        | Builtin::GreaterThan
        | Builtin::GreaterThanEqual
        | Builtin::Equal
        | Builtin::NotEqual
        | Builtin::Any
        | Builtin::All
        | Builtin::Not
        | Builtin::BitCount
        | Builtin::FindLsb
        | Builtin::FindMsb
        | Builtin::BitfieldReverse
        | Builtin::BitfieldExtract => None,
    }
}

/// What a built-in function gives on arguments of these shapes, once they are converted.
pub fn built_shape(which: Builtin, shapes: &[Shape]) -> Option<Shape>
    ensures { result ≡ spec.built_shape which shapes.now }
{
    match shapes.len() {
        1 => built_one(which, shapes[0]),
        2 => built_two(which, shapes[0], shapes[1]),
        3 => built_three(which, shapes[0], shapes[1], shapes[2]),
        4 => built_four(which, shapes[0], shapes[1], shapes[2], shapes[3]),
        _ => None,
    }
}
