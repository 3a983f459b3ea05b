//! Where decorations may stand.

ghost use Rattle.std.specs.Prelude.{◌≡◌, ◌||◌};
ghost use Rattle.gsl_kinds.specs.Seen.{kind_seen, place_seen, shape_seen};
ghost use Rattle.gsl_valid.specs.DecorationRules as spec;
ghost use Rattle.gsl_valid.specs.Kinds as kinds;

use crate::variables::Variables;
use gsl_instr::enumerant::decoration;
use gsl_kinds::{Kind, Place, Shape, kind_if, shape_of};
use gsl_words::VERSION_1_3;

/// Whether a decoration of a kind may stand on a place.
pub(crate) fn may_stand(variables: &Variables<'_>, kind: u32, place: Place) -> bool
    ensures { result ≡ spec.may_stand variables.now kind (place_seen place) }
{
    let definitions = variables.decorations().definitions();
    match place {
        Place::On { target } => variables.is_outside(target)
            && may_stand_on(
                definitions.module().version,
                kind,
                kind_if(definitions.get(target)),
            ),
        Place::OnMember { target, member } => may_stand_on_part(
            kind,
            member,
            shape_of(definitions, target),
        ),
    }
}

/// Whether a decoration may stand on what an instruction outside functions defines.
fn may_stand_on(version: u32, decoration: u32, kind: Kind<'_>) -> bool
    ensures { result ≡ (spec.may_stand_on_type version decoration (kinds.shape_in (kind_seen kind.entry)) || spec.may_stand_on_variable decoration (kinds.variable_in (kind_seen kind.entry))) }
{
    match kind {
        Kind::Declares(shape) => may_stand_on_type(version, decoration, shape),
        Kind::Holds(_) => is_on_variables(decoration),
        _ => false,
    }
}

/// Whether a decoration may stand on a type.
fn may_stand_on_type(version: u32, kind: u32, shape: Shape<'_>) -> bool
    ensures { result ≡ spec.may_stand_on_type version kind (shape_seen shape.entry) }
{
    match shape {
        Shape::Array { .. } | Shape::RuntimeArray { .. } => kind == decoration::ARRAY_STRIDE,
        Shape::Struct { .. } => is_on_structs(version, kind),
        _ => false,
    }
}

/// Whether a decoration is one that stands on structs, where BufferBlock is one of version 1.0 alone.
fn is_on_structs(version: u32, kind: u32) -> bool
    ensures { result ≡ spec.is_one_of (spec.on_structs version) kind }
{
    kind == decoration::BLOCK || version != VERSION_1_3 && kind == decoration::BUFFER_BLOCK
}

/// Whether a decoration is one that stands on global variables.
fn is_on_variables(kind: u32) -> bool
    ensures { result ≡ spec.is_one_of spec.on_variables kind }
{
    matches!(
        kind,
        decoration::BUILT_IN
            | decoration::FLAT
            | decoration::LOCATION
            | decoration::BINDING
            | decoration::DESCRIPTOR_SET
    )
}

/// Whether a decoration may stand on a member of a type.
fn may_stand_on_part(kind: u32, member: u32, shape: Shape<'_>) -> bool
    ensures { result ≡ spec.may_stand_on_part kind member (shape_seen shape.entry) }
{
    match shape {
        Shape::Struct { members, .. } => (member as usize) < members.len() && is_on_members(kind),
        _ => false,
    }
}

/// Whether a decoration is one that stands on members.
fn is_on_members(kind: u32) -> bool
    ensures { result ≡ spec.is_one_of spec.on_members kind }
{
    matches!(
        kind,
        decoration::OFFSET
            | decoration::NON_WRITABLE
            | decoration::NON_READABLE
            | decoration::COHERENT
            | decoration::VOLATILE
    )
}

/// Whether a decoration is one that has a literal.
fn is_with_literal(kind: u32) -> bool
    ensures { result ≡ spec.is_one_of spec.with_literal kind }
{
    matches!(
        kind,
        decoration::ARRAY_STRIDE
            | decoration::BUILT_IN
            | decoration::LOCATION
            | decoration::BINDING
            | decoration::DESCRIPTOR_SET
            | decoration::OFFSET
    )
}

/// Whether there is one literal where the kind needs one, and else none.
pub(crate) fn has_literals(kind: u32, literals: &[u32]) -> bool
    ensures { result ≡ spec.has_literals kind literals.now }
{
    if is_with_literal(kind) {
        literals.len() == 1
    } else {
        literals.is_empty()
    }
}
