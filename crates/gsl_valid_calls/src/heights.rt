//! How high types are.

ghost use Rattle.std.specs.Prelude.{◌≡◌, ◌+◌, max, min, map, slice_index};
ghost use Rattle.gsl_kinds.specs.Seen.{shape_seen};
ghost use Rattle.gsl_valid.specs.Types as types;
ghost use Rattle.gsl_valid_calls.specs.Heights as spec;

use crate::table::{byte_at, put_byte};
use gsl_ids::defined_by;
use gsl_kinds::{Shape, kind_at, shape_in};

/// A height that is told of all types that are higher too.
pub(crate) const BEYOND: u8 = 66;

/// Notes how high the type is that an instruction declares, where those before it are noted.
pub(crate) fn note(heights: &mut Vec<u8>, op: u16, args: &[u32])
    ensures { heights.new.items ≡ spec.heights_after heights.old.items (record { op = op; args = args.now }) }
{
    if let Some(id) = defined_by(op, args) {
        let height = above(highest_part(heights, shape_in(kind_at(op, args))));
        put_byte(heights, id, height);
    }
}

/// One more than a height.
fn above(height: u8) -> u8
    ensures { result ≡ min 66 (1 + height) }
{
    if height < BEYOND { height + 1 } else { BEYOND }
}

/// The height of the highest part of a type.
fn highest_part(heights: &[u8], shape: Shape<'_>) -> u8
    ensures { result ≡ types.highest (map (slice_index heights.now) (types.parts_in (shape_seen shape.entry))) }
{
    match shape {
        Shape::Array { element, .. } => byte_at(heights, element),
        Shape::RuntimeArray { element } => byte_at(heights, element),
        Shape::Struct { members, .. } => highest_of(heights, members),
        _ => 0,
    }
}

/// The height of the highest of some types.
pub(crate) fn highest_of(heights: &[u8], ids: &[u32]) -> u8
    ensures { result ≡ types.highest (map (slice_index heights.now) ids.now) }
{
    let mut highest = 0;
    for id in ids {
        highest = higher(highest, byte_at(heights, *id));
    }
    highest
}

/// The higher of two heights.
fn higher(a: u8, b: u8) -> u8
    ensures { result ≡ max a b }
{
    if a < b { b } else { a }
}
