//! What ids stand for.

ghost use Rattle.std.specs.Prelude.{◌≡◌};
ghost use Rattle.gsl_kinds.specs.Seen as seen;
ghost use Rattle.gsl_valid.specs.Kinds as kinds;
ghost use Rattle.gsl_valid.specs.Types as spec;

use crate::kind::{Kind, Shape, Value};
use crate::reading::kind_if;
use gsl_ids::Definitions;
use gsl_instr::enumerant::storage_class;

/// The type that an id stands for.
pub fn shape_of<'a>(definitions: &Definitions<'a>, id: u32) -> Shape<'a>
    ensures { seen.shape_seen result ≡ kinds.shape_of (spec.defined_as definitions.now id) }
{
    shape_in(kind_if(definitions.get(id)))
}

/// The type that an instruction declares.
pub fn shape_in(kind: Kind<'_>) -> Shape<'_>
    ensures { seen.shape_seen result ≡ kinds.shape_in (seen.kind_seen kind.entry) }
{
    match kind {
        Kind::Declares(shape) => shape,
        _ => Shape::NoType,
    }
}

/// The type of the value that an id stands for.
pub fn type_of(definitions: &Definitions<'_>, id: u32) -> Option<u32>
    ensures { result ≡ kinds.type_of (spec.defined_as definitions.now id) }
{
    type_in(kind_if(definitions.get(id)))
}

/// The type of the value that an instruction gives.
pub fn type_in(kind: Kind<'_>) -> Option<u32>
    ensures { result ≡ kinds.type_in (seen.kind_seen kind.entry) }
{
    match kind {
        Kind::Fixes { type_, .. } => Some(type_),
        Kind::Holds(variable) => Some(variable.type_),
        Kind::Takes { type_ } => Some(type_),
        Kind::Calls { type_, .. } => Some(type_),
        Kind::Gives { type_ } => Some(type_),
        _ => None,
    }
}

/// The word that an id stands for, if it is that of a constant of one word.
pub fn value_of(definitions: &Definitions<'_>, id: u32) -> Option<u32>
    ensures { result ≡ kinds.value_of (spec.defined_as definitions.now id) }
{
    value_in(kind_if(definitions.get(id)))
}

/// The word of a constant of one word.
pub fn value_in(kind: Kind<'_>) -> Option<u32>
    ensures { result ≡ kinds.word_if (kinds.constant_in (seen.kind_seen kind.entry)) }
{
    match kind {
        Kind::Fixes {
            value: Value::Word(word),
            ..
        } => Some(word),
        _ => None,
    }
}

/// Whether an id stands for a constant of a type.
pub fn is_constant_of(definitions: &Definitions<'_>, type_: u32, id: u32) -> bool
    ensures { result ≡ spec.constant_of type_ (spec.defined_as definitions.now id) }
{
    is_constant_in(type_, kind_if(definitions.get(id)))
}

/// Whether an instruction is a constant of a type.
fn is_constant_in(type_: u32, kind: Kind<'_>) -> bool
    ensures { result ≡ spec.is_type type_ (kinds.constant_type (kinds.constant_in (seen.kind_seen kind.entry))) }
{
    match kind {
        Kind::Fixes { type_: other, .. } => other == type_,
        _ => false,
    }
}

/// Whether the operands that initialise a variable are one constant of a type.
pub fn initialises(definitions: &Definitions<'_>, type_: u32, operands: &[u32]) -> bool
    ensures { result ≡ spec.initialises definitions.now type_ operands.now }
{
    match operands {
        [id] => is_constant_of(definitions, type_, *id),
        _ => false,
    }
}

/// Whether an id stands for Void.
pub fn is_void(definitions: &Definitions<'_>, id: u32) -> bool
    ensures { result ≡ spec.is_void definitions.now id }
{
    matches!(shape_of(definitions, id), Shape::Void)
}

/// Whether an id stands for Bool.
pub fn is_bool(definitions: &Definitions<'_>, id: u32) -> bool
    ensures { result ≡ spec.bool_type (spec.defined_as definitions.now id) }
{
    matches!(shape_of(definitions, id), Shape::Bool)
}

/// Whether an id stands for Int.
pub fn is_int(definitions: &Definitions<'_>, id: u32) -> bool
    ensures { result ≡ spec.is_int definitions.now id }
{
    matches!(shape_of(definitions, id), Shape::Int { .. })
}

/// Whether an id stands for a struct.
pub fn is_struct(definitions: &Definitions<'_>, id: u32) -> bool
    ensures { result ≡ spec.is_struct definitions.now id }
{
    matches!(shape_of(definitions, id), Shape::Struct { .. })
}

/// Whether an id stands for an array without length.
pub fn is_runtime(definitions: &Definitions<'_>, id: u32) -> bool
    ensures { result ≡ spec.is_runtime definitions.now id }
{
    matches!(shape_of(definitions, id), Shape::RuntimeArray { .. })
}

/// Whether an id stands for a type of values: Bool, Int, a vector, an array with length or a struct.
pub fn is_value_type(definitions: &Definitions<'_>, id: u32) -> bool
    ensures { result ≡ spec.is_value_type definitions.now id }
{
    matches!(
        shape_of(definitions, id),
        Shape::Bool
            | Shape::Int { .. }
            | Shape::Vector { .. }
            | Shape::Array { .. }
            | Shape::Struct { .. }
    )
}

/// Whether an id stands for a pointer of class Function.
pub fn is_local_pointer(definitions: &Definitions<'_>, id: u32) -> bool
    ensures { result ≡ spec.local_pointer (spec.defined_as definitions.now id) }
{
    match shape_of(definitions, id) {
        Shape::Pointer { class, .. } => class == storage_class::FUNCTION,
        _ => false,
    }
}

/// Whether a value is of a type.
pub fn has_type(definitions: &Definitions<'_>, type_: u32, value: u32) -> bool
    ensures { result ≡ spec.has_type definitions.now type_ value }
{
    match type_of(definitions, value) {
        Some(other) => other == type_,
        None => false,
    }
}

/// Whether a value is of a type Int.
pub fn is_int_value(definitions: &Definitions<'_>, value: u32) -> bool
    ensures { result ≡ spec.is_int_value definitions.now value }
{
    match type_of(definitions, value) {
        Some(type_) => is_int(definitions, type_),
        None => false,
    }
}
