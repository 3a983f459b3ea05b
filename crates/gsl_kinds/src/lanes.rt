//! Scalars and vectors.

ghost use Rattle.std.specs.Prelude.{◌≡◌};
ghost use Rattle.gsl_kinds.specs.Seen as seen;
ghost use Rattle.gsl_valid.specs.Kinds as kinds;
ghost use Rattle.gsl_valid.specs.Types as spec;

use crate::kind::Shape;
use crate::types::shape_of;
use gsl_ids::Definitions;

/// What a scalar is.
#[derive(Clone, Copy)]
pub enum Scalar {
    Truths,
    Words { signedness: u32 },
}

/// The components of a scalar or vector type, one for a scalar.
#[derive(Clone, Copy)]
pub struct Lanes {
    pub scalar: Scalar,
    pub size: u32,
}

/// The components of a type, if it is a scalar or vector.
pub fn lanes_of(definitions: &Definitions<'_>, type_: u32) -> Option<Lanes>
    ensures { seen.lanes_seen result ≡ spec.lanes_of definitions.now type_ }
{
    match shape_of(definitions, type_) {
        Shape::Vector { component, count } => of_scalar(shape_of(definitions, component), count),
        shape => of_scalar(shape, 1),
    }
}

/// So many components of a type, if it is a scalar.
fn of_scalar(shape: Shape<'_>, size: u32) -> Option<Lanes>
    ensures { seen.lanes_seen result ≡ spec.lanes_with size (spec.scalar_in (seen.shape_seen shape.entry)) }
{
    match shape {
        Shape::Bool => Some(Lanes {
            scalar: Scalar::Truths,
            size,
        }),
        Shape::Int { signedness } => Some(Lanes {
            scalar: Scalar::Words { signedness },
            size,
        }),
        _ => None,
    }
}

/// Whether a type is Int or a vector of Int.
pub fn is_ints(definitions: &Definitions<'_>, type_: u32) -> bool
    ensures { result ≡ spec.is_ints definitions.now type_ }
{
    match lanes_of(definitions, type_) {
        Some(lanes) => matches!(lanes.scalar, Scalar::Words { .. }),
        None => false,
    }
}

/// Whether a type is Int or a vector of Int, of a signedness.
pub fn is_ints_of(definitions: &Definitions<'_>, sign: u32, type_: u32) -> bool
    ensures { result ≡ spec.has_lanes (spec.is_words_of sign) (spec.lanes_of definitions.now type_) }
{
    match lanes_of(definitions, type_) {
        Some(lanes) => match lanes.scalar {
            Scalar::Words { signedness } => signedness == sign,
            Scalar::Truths => false,
        },
        None => false,
    }
}

/// Whether a type is Bool or a vector of Bool.
pub fn is_truth(definitions: &Definitions<'_>, type_: u32) -> bool
    ensures { result ≡ spec.has_lanes spec.is_truths (spec.lanes_of definitions.now type_) }
{
    match lanes_of(definitions, type_) {
        Some(lanes) => matches!(lanes.scalar, Scalar::Truths),
        None => false,
    }
}

/// Whether two types are scalars or vectors of one size.
pub fn same_size(definitions: &Definitions<'_>, a: u32, b: u32) -> bool
    ensures { result ≡ spec.same_size (spec.lanes_of definitions.now a) (spec.lanes_of definitions.now b) }
{
    match lanes_of(definitions, a) {
        Some(one) => match lanes_of(definitions, b) {
            Some(other) => one.size == other.size,
            None => false,
        },
        None => false,
    }
}
