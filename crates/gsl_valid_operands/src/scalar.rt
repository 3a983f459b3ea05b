//! Operators on scalars and vectors.

ghost use Rattle.std.specs.Prelude.{◌≡◌};
ghost use Rattle.gsl_valid.specs.Kinds as kinds;
ghost use Rattle.gsl_valid.specs.OperandRules as spec;
ghost use Rattle.gsl_valid.specs.Types as types;
ghost use Rattle.gsl_valid_operands.specs.Seen as seen;

use crate::sign::{Sign, is_signed};
use gsl_ids::Definitions;
use gsl_instr::op;
use gsl_kinds::{Shape, has_type, is_bool, is_ints, is_truth, same_size, shape_of, type_of};

/// Whether a value is of a type of integers of the size of another type.
pub(crate) fn is_ints_sized(definitions: &Definitions<'_>, type_: u32, value: u32) -> bool
    ensures { result ≡ spec.is_ints_sized definitions.now type_ (kinds.type_of (types.defined_as definitions.now value)) }
{
    match type_of(definitions, value) {
        Some(other) => is_ints(definitions, other) && same_size(definitions, type_, other),
        None => false,
    }
}

/// Whether a value is of a type of truth values of the size of another type.
pub(crate) fn is_truth_sized(definitions: &Definitions<'_>, type_: u32, value: u32) -> bool
    ensures { result ≡ spec.is_truth_sized definitions.now type_ (kinds.type_of (types.defined_as definitions.now value)) }
{
    match type_of(definitions, value) {
        Some(other) => is_truth(definitions, other) && same_size(definitions, type_, other),
        None => false,
    }
}

/// Whether a value is a Bool.
pub(crate) fn is_bool_value(definitions: &Definitions<'_>, value: u32) -> bool
    ensures { result ≡ spec.is_bool_value definitions.now (kinds.type_of (types.defined_as definitions.now value)) }
{
    match type_of(definitions, value) {
        Some(type_) => is_bool(definitions, type_),
        None => false,
    }
}

/// Whether two values of one type of integers of a signedness are compared to a type of their size.
pub(crate) fn are_compared(
    definitions: &Definitions<'_>,
    sign: Sign,
    type_: u32,
    a: u32,
    b: u32,
) -> bool
    ensures { result ≡ spec.are_compared definitions.now (seen.sign_seen sign) type_ b (kinds.type_of (types.defined_as definitions.now a)) }
{
    match type_of(definitions, a) {
        Some(other) => {
            is_ints(definitions, other)
                && is_signed(definitions, sign, other)
                && has_type(definitions, other, b)
                && same_size(definitions, type_, other)
        }
        None => false,
    }
}

/// Whether an operator of one operand gives a type from a value.
pub(crate) fn is_unary(definitions: &Definitions<'_>, op: u16, type_: u32, a: u32) -> bool
    ensures { result ≡ spec.is_unary definitions.now op type_ (kinds.type_of (types.defined_as definitions.now a)) }
{
    match type_of(definitions, a) {
        Some(other) => is_unary_of(definitions, op, type_, other),
        None => false,
    }
}

/// Whether an operator of one operand gives a type from a type.
fn is_unary_of(definitions: &Definitions<'_>, op: u16, type_: u32, other: u32) -> bool
    ensures { result ≡ spec.is_unary_of definitions.now op type_ other }
{
    if op == op::BITCAST || op == op::BIT_COUNT {
        is_ints(definitions, type_)
            && is_ints(definitions, other)
            && same_size(definitions, type_, other)
    } else if op == op::ANY || op == op::ALL {
        is_bool(definitions, type_) && is_truth(definitions, other) && is_vector(definitions, other)
    } else if op == op::LOGICAL_NOT {
        is_truth(definitions, type_) && type_ == other
    } else {
        is_ints(definitions, type_) && type_ == other
    }
}

/// Whether a type is a vector.
fn is_vector(definitions: &Definitions<'_>, type_: u32) -> bool
    ensures { result ≡ spec.is_vector (kinds.shape_of (types.defined_as definitions.now type_)) }
{
    matches!(shape_of(definitions, type_), Shape::Vector { .. })
}
