//! Indexes along types.

ghost use Rattle.std.specs.Prelude.{◌≡◌, Some};
ghost use Rattle.gsl_kinds.specs.Seen.{kind_seen, shape_seen};
ghost use Rattle.gsl_valid.specs.Kinds as kinds;
ghost use Rattle.gsl_valid.specs.MemoryRules as spec;
ghost use Rattle.gsl_valid.specs.Types as types;
ghost use Rattle.gsl_valid_blocks.specs.Seen.{target_if_seen};

use crate::storage::{Chain, chain_if};
use crate::target::{Target, target_at};
use gsl_decorations::Decorations;
use gsl_ids::Definitions;
use gsl_instr::Instruction;
use gsl_kinds::{Kind, Shape, is_int_value, shape_of, value_of};

/// Whether a chain may begin at what an instruction defines: a variable or a parameter.
pub(crate) fn is_base(kind: Kind<'_>) -> bool
    ensures { result ≡ spec.is_base (kind_seen kind.entry) }
{
    matches!(kind, Kind::Holds(_) | Kind::Takes { .. })
}

/// Whether indexes lead from what a base points to, to what a pointer of the same class points to.
pub(crate) fn leads_to(
    definitions: &Definitions<'_>,
    base: Option<Target>,
    indexes: &[u32],
    target: Option<Target>,
) -> bool
    ensures { result ≡ spec.leads_to definitions.now (target_if_seen base) indexes.now (target_if_seen target) }
{
    match (base, target) {
        (Some(base), Some(target)) => {
            base.class == target.class
                && is_part(target.pointee, part_at(definitions, base.pointee, indexes))
        }
        _ => false,
    }
}

/// Whether there is a part, and it is of this type.
fn is_part(type_: u32, part: Option<u32>) -> bool
    ensures { result ≡ spec.is_part type_ part }
{
    match part {
        Some(part) => part == type_,
        None => false,
    }
}

/// The type that indexes lead to from a type.
fn part_at(definitions: &Definitions<'_>, type_: u32, indexes: &[u32]) -> Option<u32>
    ensures { result ≡ spec.part_at definitions.now (Some type_) indexes.now }
{
    let mut part = type_;
    for index in indexes {
        match part_of(definitions, part, *index) {
            Some(next) => part = next,
            None => return None,
        }
    }
    Some(part)
}

/// The type of the part of a type at an index.
fn part_of(definitions: &Definitions<'_>, type_: u32, index: u32) -> Option<u32>
    ensures { result ≡ spec.part_of definitions.now type_ index }
{
    match shape_of(definitions, type_) {
        Shape::Vector { component, .. } => if_indexed(definitions, index, component),
        Shape::Array { element, .. } => if_indexed(definitions, index, element),
        Shape::RuntimeArray { element } => if_indexed(definitions, index, element),
        Shape::Struct { members, .. } => member_at(members, value_of(definitions, index)),
        _ => None,
    }
}

/// A type, where an index is an Int.
fn if_indexed(definitions: &Definitions<'_>, index: u32, type_: u32) -> Option<u32>
    ensures { result ≡ spec.if_indexed (types.is_int_value definitions.now index) type_ }
{
    if is_int_value(definitions, index) {
        Some(type_)
    } else {
        None
    }
}

/// The type of the member of a number.
fn member_at(members: &[u32], number: Option<u32>) -> Option<u32>
    ensures { result ≡ spec.member_at members.now number }
{
    match number {
        Some(number) => members.get(number as usize).copied(),
        None => None,
    }
}

/// Whether an instruction, if it is a chain, leads through a member that has a decoration.
pub(crate) fn leads_through(
    decorations: &Decorations<'_>,
    kind: u32,
    instruction: Option<Instruction<'_>>,
) -> bool
    ensures { result ≡ spec.leads_through decorations.now kind instruction.entry }
{
    match chain_if(instruction) {
        Some(chain) => leads_along(decorations, kind, chain),
        None => false,
    }
}

/// Whether a chain does.
fn leads_along(decorations: &Decorations<'_>, kind: u32, chain: Chain<'_>) -> bool
    ensures { result ≡ spec.leads_along decorations.now kind (Some (chain.entry.base, chain.entry.indexes.now)) }
{
    match target_at(decorations.definitions(), chain.base) {
        Some(target) => passes_one(decorations, kind, target.pointee, chain.indexes),
        None => false,
    }
}

/// Whether a member on the way from a type along indexes has a decoration.
fn passes_one(decorations: &Decorations<'_>, kind: u32, type_: u32, indexes: &[u32]) -> bool
    ensures { result ≡ spec.passes_one decorations.now kind (Some type_) indexes.now }
{
    let mut part = type_;
    for index in indexes {
        if marks(decorations, kind, part, *index) {
            return true;
        }
        match part_of(decorations.definitions(), part, *index) {
            Some(next) => part = next,
            None => return false,
        }
    }
    false
}

/// Whether a type is a struct, and an index names a member of it that has a decoration.
fn marks(decorations: &Decorations<'_>, kind: u32, type_: u32, index: u32) -> bool
    ensures { result ≡ spec.marks decorations.now kind (kinds.value_of (types.defined_as decorations.now index)) (kinds.shape_of (types.defined_as decorations.now type_)) }
{
    match shape_of(decorations.definitions(), type_) {
        Shape::Struct { id, .. } => is_marked(
            decorations,
            kind,
            id,
            value_of(decorations.definitions(), index),
        ),
        _ => false,
    }
}

/// Whether there is a member, and it has a decoration.
fn is_marked(decorations: &Decorations<'_>, kind: u32, id: u32, member: Option<u32>) -> bool
    ensures { result ≡ spec.is_marked decorations.now kind id member }
{
    match member {
        Some(member) => decorations.member_has(kind, id, member),
        None => false,
    }
}
