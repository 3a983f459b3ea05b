//! Composites and their parts.

ghost use Rattle.std.specs.Prelude.{◌≡◌, ◌+◌, ◌==◌, nat_lt, map};
ghost use Rattle.std.specs.List.{list_all, sum};
ghost use Rattle.gsl_kinds.specs.Seen.{shape_seen};
ghost use Rattle.gsl_valid.specs.Kinds as kinds;
ghost use Rattle.gsl_valid.specs.OperandRules as spec;
ghost use Rattle.gsl_valid.specs.Types as types;

use gsl_ids::Definitions;
use gsl_kinds::{Parts, Shape, are_parts, has_type, lanes_of, shape_of, type_of, value_of};

/// Whether values are put together to a type: a vector from scalars and vectors, an array or struct from each of its parts.
pub(crate) fn is_built(definitions: &Definitions<'_>, parts: &[u32], shape: Shape<'_>) -> bool
    ensures { result ≡ spec.is_built definitions.now parts.now (shape_seen shape.entry) }
{
    match shape {
        Shape::Vector { component, count } => are_of_scalar(definitions, component, parts)
            && fill(definitions, count, parts),
        Shape::Array { .. } => are_parts(definitions, Parts::Values, parts, shape),
        Shape::Struct { .. } => are_parts(definitions, Parts::Values, parts, shape),
        _ => false,
    }
}

/// Whether values are scalars of a type or vectors of it.
fn are_of_scalar(definitions: &Definitions<'_>, scalar: u32, parts: &[u32]) -> bool
    ensures { result ≡ list_all (λ part. spec.is_of_scalar definitions.now scalar (kinds.type_of (types.defined_as definitions.now part))) parts.now }
{
    parts
        .iter()
        .all(|part| is_of_scalar(definitions, scalar, *part))
}

/// Whether a value is a scalar of a type or a vector of it.
fn is_of_scalar(definitions: &Definitions<'_>, scalar: u32, part: u32) -> bool
    ensures { result ≡ spec.is_of_scalar definitions.now scalar (kinds.type_of (types.defined_as definitions.now part)) }
{
    match type_of(definitions, part) {
        Some(type_) => type_ == scalar || is_component(definitions, scalar, type_),
        None => false,
    }
}

/// Whether a type is a vector of a type.
fn is_component(definitions: &Definitions<'_>, scalar: u32, type_: u32) -> bool
    ensures { result ≡ types.is_type scalar (spec.component_in (kinds.shape_of (types.defined_as definitions.now type_))) }
{
    match shape_of(definitions, type_) {
        Shape::Vector { component, .. } => component == scalar,
        _ => false,
    }
}

/// Whether values have so many components together.
fn fill(definitions: &Definitions<'_>, count: u32, parts: &[u32]) -> bool
    ensures { result ≡ (sum (map (spec.size_of definitions.now) parts.now) == count) }
{
    let mut left = count;
    let mut k = 0;
    while k < parts.len() {
        let size = size_of(definitions, parts[k]);
        if size > left {
            return false;
        }
        left -= size;
        k += 1;
    }
    0 == left
}

/// How many components a value has, 0 where it is no scalar or vector.
fn size_of(definitions: &Definitions<'_>, value: u32) -> u32
    ensures { result ≡ spec.size_of definitions.now value }
{
    match type_of(definitions, value) {
        Some(type_) => lanes_size(definitions, type_),
        None => 0,
    }
}

/// How many components a type has, 0 where it is no scalar or vector.
fn lanes_size(definitions: &Definitions<'_>, type_: u32) -> u32
    ensures { result ≡ spec.size_in (types.lanes_of definitions.now type_) }
{
    match lanes_of(definitions, type_) {
        Some(lanes) => lanes.size,
        None => 0,
    }
}

/// Whether a value is a vector of a type.
pub(crate) fn is_picked(definitions: &Definitions<'_>, type_: u32, vector: u32) -> bool
    ensures { result ≡ spec.is_picked definitions.now type_ vector }
{
    match type_of(definitions, vector) {
        Some(of) => is_component(definitions, type_, of),
        None => false,
    }
}

/// The type of the part of a type at a place.
fn part_of_at(definitions: &Definitions<'_>, k: u32, shape: Shape<'_>) -> Option<u32>
    ensures { result ≡ spec.part_of_at definitions.now k (shape_seen shape.entry) }
{
    match shape {
        Shape::Vector { component, count } => if_below(k, Some(count), component),
        Shape::Array { element, length } => if_below(k, value_of(definitions, length), element),
        Shape::Struct { members, .. } => {
            if (k as usize) < members.len() {
                Some(members[k as usize])
            } else {
                None
            }
        }
        _ => None,
    }
}

/// A type, if a place is below a count.
fn if_below(k: u32, count: Option<u32>, type_: u32) -> Option<u32>
    ensures { result ≡ spec.if_below k count type_ }
{
    match count {
        Some(count) => { if k < count { Some(type_) } else { None } }
        None => None,
    }
}

/// The type that places lead to from a type.
pub(crate) fn part_within(
    definitions: &Definitions<'_>,
    from: Option<u32>,
    places: &[u32],
) -> Option<u32>
    ensures { result ≡ spec.part_within definitions.now from places.now }
{
    let mut reached = from;
    let mut k = 0;
    while k < places.len() {
        let Some(type_) = reached else {
            return None;
        };
        reached = part_of_at(definitions, places[k], shape_of(definitions, type_));
        k += 1;
    }
    reached
}

/// Whether there is a part, and it is of a type.
pub(crate) fn is_part(type_: u32, part: Option<u32>) -> bool
    ensures { result ≡ spec.is_part type_ part }
{
    match part {
        Some(part) => part == type_,
        None => false,
    }
}

/// Whether there is a type, and a value is of it.
pub(crate) fn is_type_of(definitions: &Definitions<'_>, value: u32, type_: Option<u32>) -> bool
    ensures { result ≡ spec.is_type_of definitions.now value type_ }
{
    match type_ {
        Some(type_) => has_type(definitions, type_, value),
        None => false,
    }
}

/// Whether a type has these components of two vectors of one type.
pub(crate) fn is_shuffled(
    definitions: &Definitions<'_>,
    type_: u32,
    places: &[u32],
    first: u32,
    second: u32,
) -> bool
    ensures { result ≡ spec.is_shuffled definitions.now type_ places.now (kinds.type_of (types.defined_as definitions.now first)) (kinds.type_of (types.defined_as definitions.now second)) }
{
    match type_of(definitions, first) {
        Some(of) => {
            has_type(definitions, of, second) && is_shuffled_of(definitions, type_, places, of)
        }
        None => false,
    }
}

/// Whether a type has these components of two vectors of another.
fn is_shuffled_of(definitions: &Definitions<'_>, type_: u32, places: &[u32], of: u32) -> bool
    ensures { result ≡ spec.is_shuffled_as definitions.now places.now (kinds.shape_of (types.defined_as definitions.now type_)) (kinds.shape_of (types.defined_as definitions.now of)) }
{
    match shape_of(definitions, type_) {
        Shape::Vector { component, count } => are_shuffled(
            places,
            component,
            count,
            shape_of(definitions, of),
        ),
        _ => false,
    }
}

/// Whether so many components of this type are places in two vectors of a type.
fn are_shuffled(places: &[u32], scalar: u32, size: u32, other: Shape<'_>) -> bool
    ensures { result ≡ spec.are_shuffled places.now scalar size (shape_seen other.entry) }
{
    match other {
        Shape::Vector { component, count } => {
            component == scalar && places.len() == size as usize && are_below(places, count)
        }
        _ => false,
    }
}

/// Whether places are in one of two vectors of so many components.
fn are_below(places: &[u32], count: u32) -> bool
    ensures { result ≡ list_all (λ k. nat_lt k (count + count)) places.now }
{
    let both = u64::from(count) + u64::from(count);
    places.iter().all(|k| u64::from(*k) < both)
}
