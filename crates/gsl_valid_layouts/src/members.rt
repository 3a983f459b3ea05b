//! The members of structs and the elements of arrays.

ghost use Rattle.std.specs.Prelude.{◌≡◌, ◌+◌, ◌&&◌, ◌^◌, ◌<◌, ◌≤◌, ℕ, length, drop, slice_index};
ghost use Rattle.gsl_instr.specs.declared.enumerant.decoration.TheConstants as names;
ghost use Rattle.gsl_valid.specs.Decorations as decorated;
ghost use Rattle.gsl_valid.specs.Kinds as kinds;
ghost use Rattle.gsl_valid.specs.LayoutRules as spec;
ghost use Rattle.gsl_valid.specs.Types as types;
ghost use Rattle.gsl_valid_layouts.specs.Sizes as sizes;

use crate::marks::Reached;
use crate::sizes::{end_after, told_of};
use gsl_decorations::Decorations;
use gsl_ids::Definitions;
use gsl_instr::enumerant::decoration;
use gsl_kinds::{Shape, is_ints, shape_of};

/// A bound on all ends.
pub(crate) const END_LIMIT: u64 = 2147483648;

/// Whether the members of a struct may be laid so, by what is told of their types.
pub(crate) fn are_laid(
    reached: &Reached<'_>,
    needs: &[u64],
    extents: &[u64],
    id: u32,
    members: &[u32],
) -> bool
    requires { length members.now < 2 ^ 32 }
    ensures { result ≡ sizes.is_laid_by reached.now needs.now extents.now id 0 0 members.now }
{
    let decorations = reached.decorations();
    let mut end = 0;
    let mut member = 0;
    while (member as usize) < members.len() {
        let type_ = members[member as usize];
        let offset = decorations.number_on_member(decoration::OFFSET, id, member);
        let grows = is_last(members, member) && reached.may_grow(id);
        if !may_be_in(decorations.definitions(), grows, type_)
            || !is_at(offset, end, told_of(extents, type_))
        {
            return false;
        }
        end = end_after(offset, told_of(needs, type_));
        member += 1;
    }
    true
}

/// Whether none stands behind a member.
fn is_last(members: &[u32], member: u32) -> bool
    requires { member < length members.now }
    ensures { result ≡ spec.is_end (drop (member + 1) members.now) }
{
    member as usize + 1 == members.len()
}

/// Whether a type may be that of a member, where `last` says whether it may grow.
fn may_be_in(definitions: &Definitions<'_>, last: bool, type_: u32) -> bool
    ensures { result ≡ spec.may_be_in definitions.now last (kinds.shape_of (types.defined_as definitions.now type_)) }
{
    match shape_of(definitions, type_) {
        Shape::Int { .. } | Shape::Array { .. } | Shape::Struct { .. } => true,
        Shape::Vector { .. } => is_ints(definitions, type_),
        Shape::RuntimeArray { .. } => last,
        _ => false,
    }
}

/// Whether a member of this extent may have this offset, behind the one that ends there.
fn is_at(offset: Option<u32>, end: u64, extent: u64) -> bool
    requires { extent ≤ 2 ^ 32 }
    ensures { result ≡ spec.is_at offset end extent }
{
    match offset {
        Some(offset) => {
            let offset = u64::from(offset);
            offset % 4 == 0 && end <= offset && offset + extent < END_LIMIT
        }
        None => false,
    }
}

/// Whether the elements of an array of an id are laid as they may be.
pub(crate) fn elements_laid(
    decorations: &Decorations<'_>,
    needs: &[u64],
    id: u32,
    element: u32,
) -> bool
    ensures { (need : ℕ) → slice_index needs.now element ≡ sizes.told need → result ≡ (spec.is_part_of_blocks decorations.now (kinds.shape_of (types.defined_as decorations.now element)) && spec.is_stride (decorated.number_on decorations.now names.ARRAY_STRIDE id) need) }
{
    is_part_of_blocks(decorations.definitions(), element)
        && is_stride(
            decorations.number_on(decoration::ARRAY_STRIDE, id),
            told_of(needs, element),
        )
}

/// Whether a type is one that stands in blocks.
fn is_part_of_blocks(definitions: &Definitions<'_>, type_: u32) -> bool
    ensures { result ≡ spec.is_part_of_blocks definitions.now (kinds.shape_of (types.defined_as definitions.now type_)) }
{
    match shape_of(definitions, type_) {
        Shape::Int { .. } | Shape::Array { .. } | Shape::Struct { .. } => true,
        Shape::Vector { .. } => is_ints(definitions, type_),
        _ => false,
    }
}

/// Whether elements may follow each other by a stride, where this is told of what each needs.
fn is_stride(stride: Option<u32>, told: u64) -> bool
    ensures { (need : ℕ) → told ≡ sizes.told need → result ≡ spec.is_stride stride need }
{
    match stride {
        Some(stride) => stride % 4 == 0 && told <= u64::from(stride),
        None => false,
    }
}
