//! The parts of types.

ghost use Rattle.std.specs.Prelude.{◌≡◌, ◌≤◌, ◌*◌, IfOk, slice_index};
ghost use Rattle.gsl_enact_memory.specs.Reaching.{pointer_if_seen};
ghost use Rattle.gsl_kinds.specs.Seen.{shape_seen};
ghost use Rattle.gsl_machine.specs.Memory as spec;

use crate::pointer::Pointer;
use gsl_base::Memory;
use gsl_decorations::Decorations;
use gsl_enact_values::length_by;
use gsl_instr::enumerant::decoration;
use gsl_kinds::Shape;

/// How many whole strides stand behind an offset.
fn strides_in(size: usize, offset: usize, stride: Option<u32>) -> usize
    ensures { result ≡ spec.strides_in size offset stride }
{
    match stride {
        None => 0,
        Some(stride) => {
            if stride == 0 {
                return 0;
            }
            size.saturating_sub(offset) / stride as usize
        }
    }
}

/// How many parts a type has at an offset in so many bytes.
pub(crate) fn parts_as(
    decorations: &Decorations<'_>,
    size: usize,
    offset: usize,
    type_: u32,
    shape: Shape<'_>,
) -> usize
    ensures { result ≡ spec.parts_as decorations.now size offset type_ (shape_seen shape.entry) }
{
    match shape {
        Shape::Vector { count, .. } => count as usize,
        Shape::Array { length, .. } => length_by(decorations.definitions(), length) as usize,
        Shape::RuntimeArray { .. } => strides_in(
            size,
            offset,
            decorations.number_on(decoration::ARRAY_STRIDE, type_),
        ),
        Shape::Struct { members, .. } => members.len(),
        _ => 0,
    }
}

/// So many strides.
fn strides(stride: u32, index: u32) -> usize
    ensures product { result ≡ stride * index }
    ensures small { result ≤ 18446744065119617025 }
{
    stride as usize * index as usize
}

/// A pointer so much further.
fn further(
    variable: u32,
    offset: usize,
    more: usize,
    pointee: u32,
) -> Result<Option<Pointer>, Memory>
    ensures { IfOk result (λ p. pointer_if_seen p ≡ spec.at_offset variable offset (Some more) pointee) }
{
    if offset > usize::MAX - more {
        return Err(Memory);
    }
    Ok(Some(Pointer::InBlock {
        variable,
        offset: offset + more,
        pointee,
    }))
}

fn at_offset(
    variable: u32,
    offset: usize,
    more: Option<u32>,
    pointee: u32,
) -> Result<Option<Pointer>, Memory>
    ensures { IfOk result (λ p. pointer_if_seen p ≡ spec.at_offset variable offset more pointee) }
{
    match more {
        None => Ok(None),
        Some(more) => further(variable, offset, more as usize, pointee),
    }
}

fn at_stride(
    variable: u32,
    offset: usize,
    stride: Option<u32>,
    index: u32,
    pointee: u32,
) -> Result<Option<Pointer>, Memory>
    ensures { IfOk result (λ p. pointer_if_seen p ≡ spec.at_stride variable offset stride index pointee) }
{
    match stride {
        None => Ok(None),
        Some(stride) => further(variable, offset, strides(stride, index), pointee),
    }
}

/// The type of a member; 0 past the last.
fn member_at(members: &[u32], index: u32) -> u32
    ensures { result ≡ slice_index members.now index }
{
    match members.get(index as usize) {
        Some(type_) => *type_,
        None => 0,
    }
}

/// The part of a type at an index that is below the count.
pub(crate) fn part_as(
    decorations: &Decorations<'_>,
    variable: u32,
    offset: usize,
    type_: u32,
    index: u32,
    shape: Shape<'_>,
) -> Result<Option<Pointer>, Memory>
    ensures { IfOk result (λ p. pointer_if_seen p ≡ spec.part_as decorations.now variable offset type_ index (shape_seen shape.entry)) }
{
    match shape {
        Shape::Vector { component, .. } => further(variable, offset, strides(4, index), component),
        Shape::Array { element, .. } | Shape::RuntimeArray { element } => {
            let stride = decorations.number_on(decoration::ARRAY_STRIDE, type_);
            at_stride(variable, offset, stride, index, element)
        }
        Shape::Struct { members, .. } => {
            let more = decorations.number_on_member(decoration::OFFSET, type_, index);
            at_offset(variable, offset, more, member_at(members, index))
        }
        _ => Ok(None),
    }
}
