//! Parts of values.

ghost use Rattle.std.specs.Prelude.{◌≡◌, length};
ghost use Rattle.std.specs.List.{list_all};
ghost use Rattle.gsl_kinds.specs.Seen as seen;
ghost use Rattle.gsl_valid.specs.ConstantRules as spec;

use crate::kind::Shape;
use crate::types::{has_type, is_constant_of, value_of};
use gsl_ids::Definitions;

/// What the parts of a value are.
#[derive(Clone, Copy)]
pub enum Parts {
    Constants,
    Values,
}

/// Whether an id stands for a part of a type.
fn has(definitions: &Definitions<'_>, parts: Parts, type_: u32, id: u32) -> bool
    ensures { result ≡ seen.has_part parts definitions.now type_ id }
{
    match parts {
        Parts::Constants => is_constant_of(definitions, type_, id),
        Parts::Values => has_type(definitions, type_, id),
    }
}

/// Whether these ids are the parts of a type: one for each component, element or member.
pub fn are_parts(definitions: &Definitions<'_>, parts: Parts, ids: &[u32], shape: Shape<'_>) -> bool
    ensures { result ≡ spec.are_parts definitions.now (seen.has_part parts definitions.now) ids.now (seen.shape_seen shape.entry) }
{
    match shape {
        Shape::Vector { component, count } => have_all(
            definitions,
            parts,
            component,
            Some(count),
            ids,
        ),
        Shape::Array { element, length } => have_all(
            definitions,
            parts,
            element,
            value_of(definitions, length),
            ids,
        ),
        Shape::Struct { members, .. } => have_each(definitions, parts, members, ids),
        _ => false,
    }
}

/// Whether there are as many ids as said, each of one type.
fn have_all(
    definitions: &Definitions<'_>,
    parts: Parts,
    type_: u32,
    count: Option<u32>,
    ids: &[u32],
) -> bool
    ensures { result ≡ spec.have_all (seen.has_part parts definitions.now) type_ count ids.now }
{
    match count {
        Some(count) => ids.len() == count as usize && all_have(definitions, parts, type_, ids),
        None => false,
    }
}

/// Whether ids stand for parts of one type.
fn all_have(definitions: &Definitions<'_>, parts: Parts, type_: u32, ids: &[u32]) -> bool
    ensures { result ≡ list_all (seen.has_part parts definitions.now type_) ids.now }
{
    ids.iter().all(|id| has(definitions, parts, type_, *id))
}

/// Whether these ids have these types one by one.
pub fn have_each(definitions: &Definitions<'_>, parts: Parts, types: &[u32], ids: &[u32]) -> bool
    ensures { result ≡ spec.have_each (seen.has_part parts definitions.now) types.now ids.now }
{
    if types.len() != ids.len() {
        return false;
    }
    let mut k = 0;
    while k < types.len() {
        if !has(definitions, parts, types[k], ids[k]) {
            return false;
        }
        k += 1;
    }
    true
}
