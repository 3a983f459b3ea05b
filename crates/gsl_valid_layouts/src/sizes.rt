//! What types need and extend over, in bytes.

ghost use Rattle.std.specs.Prelude.{◌≡◌, ◌+◌, ◌-◌, ◌*◌, ◌^◌, ◌<◌, ◌≤◌, length, max, min, slice_index, slice_set};
ghost use Rattle.gsl_kinds.specs.Seen.{shape_seen};
ghost use Rattle.gsl_valid.specs.LayoutRules as spec;
ghost use Rattle.gsl_valid.specs.Types as types;
ghost use Rattle.gsl_valid_layouts.specs.Sizes as sizes;

use gsl_decorations::Decorations;
use gsl_instr::enumerant::decoration;
use gsl_kinds::{Shape, value_of};

/// A size that is told of all that are greater too: it is above every offset and stride.
const MOST_TOLD: u64 = 4294967296;

/// What is told of a size.
fn told(size: u64) -> u64
    ensures { result ≡ sizes.told size }
{
    if size < MOST_TOLD { size } else { MOST_TOLD }
}

/// What a table tells of a type, 0 where it has no row.
pub(crate) fn told_of(rows: &[u64], id: u32) -> u64
    ensures { result ≡ sizes.told_of rows.now id }
{
    match rows.get(id as usize) {
        Some(size) => told(*size),
        None => 0,
    }
}

/// Puts the size of an id, if it has a row.
pub(crate) fn put(rows: &mut Vec<u64>, id: u32, size: u64)
    ensures { rows.new.items ≡ slice_set rows.old.items id size }
{
    if (id as usize) < rows.len() {
        rows[id as usize] = size;
    }
}

/// What a type of an id needs up to the end of its last leaf, by the needs of its parts.
pub(crate) fn need_of(
    decorations: &Decorations<'_>,
    needs: &[u64],
    id: u32,
    shape: Shape<'_>,
) -> u64
    requires { length (types.parts_in (shape_seen shape)) < 2 ^ 32 }
    ensures { result ≡ sizes.told (spec.need_as decorations.now (sizes.told_of needs.now) id (shape_seen shape.entry)) }
{
    match shape {
        Shape::Bool | Shape::Int { .. } => 4,
        Shape::Vector { count, .. } => told(4 * u64::from(count)),
        Shape::Array { element, length } => told(array_need(
            decorations.number_on(decoration::ARRAY_STRIDE, id),
            value_of(decorations.definitions(), length),
            told_of(needs, element),
        )),
        Shape::Struct { id, members } => told(end_of_last(decorations, needs, id, members)),
        _ => 0,
    }
}

/// What a type of an id extends over, by the extents of its parts.
pub(crate) fn extent_of(
    decorations: &Decorations<'_>,
    extents: &[u64],
    id: u32,
    shape: Shape<'_>,
) -> u64
    requires { length (types.parts_in (shape_seen shape)) < 2 ^ 32 }
    ensures { result ≡ sizes.told (spec.extent_as decorations.now (sizes.told_of extents.now) id (shape_seen shape.entry)) }
{
    match shape {
        Shape::Bool | Shape::Int { .. } => 4,
        Shape::Vector { count, .. } => told(4 * u64::from(count)),
        Shape::Array { length, .. } => told(array_extent(
            decorations.number_on(decoration::ARRAY_STRIDE, id),
            value_of(decorations.definitions(), length),
        )),
        Shape::Struct { id, members } => told(greatest_end(decorations, extents, id, members)),
        _ => 0,
    }
}

/// What an array needs, by its stride, its length and what an element needs.
fn array_need(stride: Option<u32>, length: Option<u32>, need: u64) -> u64
    requires { need ≤ 2 ^ 32 }
    ensures { result ≡ spec.array_of stride length (λ stride count. stride * (count - 1) + need) }
{
    match stride {
        Some(stride) => match length {
            Some(count) => strides(stride, count.saturating_sub(1)) + need,
            None => 0,
        },
        None => 0,
    }
}

/// What an array extends over.
fn array_extent(stride: Option<u32>, length: Option<u32>) -> u64
    ensures { result ≡ spec.array_of stride length (λ stride count. stride * count) }
{
    match stride {
        Some(stride) => match length {
            Some(count) => strides(stride, count),
            None => 0,
        },
        None => 0,
    }
}

/// So many strides.
fn strides(stride: u32, count: u32) -> u64
    ensures product { result ≡ stride * count }
    ensures small { result ≤ 18446744065119617025 }
{
    u64::from(stride) * u64::from(count)
}

/// The end of what stands at an offset.
pub(crate) fn end_after(offset: Option<u32>, size: u64) -> u64
    requires { size ≤ 2 ^ 32 }
    ensures { result ≡ spec.end_after offset size }
{
    match offset {
        Some(offset) => u64::from(offset) + size,
        None => 0,
    }
}

/// The end of the last member of a struct, by the needs of types.
fn end_of_last(decorations: &Decorations<'_>, needs: &[u64], id: u32, members: &[u32]) -> u64
    requires { length members.now < 2 ^ 32 }
    ensures { result ≡ spec.end_of_last decorations.now (sizes.told_of needs.now) id 0 0 members.now }
{
    let mut end = 0;
    let mut member = 0;
    while (member as usize) < members.len() {
        let offset = decorations.number_on_member(decoration::OFFSET, id, member);
        end = end_after(offset, told_of(needs, members[member as usize]));
        member += 1;
    }
    end
}

/// The greatest end of the members of a struct, by the extents of types.
fn greatest_end(decorations: &Decorations<'_>, extents: &[u64], id: u32, members: &[u32]) -> u64
    requires { length members.now < 2 ^ 32 }
    ensures { result ≡ spec.greatest_end decorations.now (sizes.told_of extents.now) id 0 0 members.now }
{
    let mut end = 0;
    let mut member = 0;
    while (member as usize) < members.len() {
        let offset = decorations.number_on_member(decoration::OFFSET, id, member);
        end = greater(
            end,
            end_after(offset, told_of(extents, members[member as usize])),
        );
        member += 1;
    }
    end
}

/// The greater of two ends.
fn greater(a: u64, b: u64) -> u64
    ensures { result ≡ max a b }
{
    if a < b { b } else { a }
}
