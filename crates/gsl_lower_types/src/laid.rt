//! Types as they lie in blocks.

ghost use Rattle.std.specs.Prelude.{◌≡◌, IfOk, slice_get};
ghost use Rattle.gsl_layout.specs.Kinds.{kind_of};
ghost use Rattle.gsl_layout.specs.Layout.{members_of};
ghost use Rattle.gsl_layout.specs.declared.kind.Kind.TheVariants as kind;
ghost use Rattle.gsl_types.specs.declared.ty.Ty.TheViews.{out-Ty};
ghost use Rattle.gsl_tree.specs.Shapes.{shape_of as shape_in};
ghost use Rattle.gsl_lower_values.specs.Building as steps;
ghost use Rattle.gsl_lower_types.specs.Known as puts;
ghost use Rattle.gsl_lower_types.specs.Known.{Does};
ghost use Rattle.gsl_lower_types.specs.Laid as spec;

use crate::known::keep;
use gsl_base::{List, Memory};
use gsl_instr::enumerant::decoration;
use gsl_layout::{Kind, Laid};
use gsl_lower_holders::{Ids, TypeIds, find_type};
use gsl_lower_places::stored_scalar;
use gsl_lower_values::{scalar_constant, type_of};
use gsl_spv::{BuildRefusal, Builder};
use gsl_types::{Members, Scalar, Structs, Ty, Types};
use gsl_typing::{copy, shape_of};
use std::alloc::Global;

/// The type of a scalar or vector in a block.
fn stored_as(b: &mut Builder, known: &TypeIds, ty: &Ty) -> Result<u32, BuildRefusal>
    ensures { Does result b.new known.now (spec.stored_as (shape_in ty.now) known.now b.old) }
{
    match shape_of(ty) {
        Some(shape) => type_of(b, (stored_scalar(shape.0), shape.1)),
        None => Err(BuildRefusal::Memory),
    }
}

/// A new type of arrays with a stride in bytes.
fn array_by(b: &mut Builder, stride: u32, element: u32, count: u32) -> Result<u32, BuildRefusal>
    ensures { steps.Does result b.new (spec.array_by stride element count b.old) }
{
    let length = scalar_constant(b, Scalar::Uint, count)?;
    b.array_type(element, length, Some(stride))
}

/// The offsets of the members of a struct.
fn offsets(b: &mut Builder, id: u32, laid: &Laid, count: u32) -> Result<(), BuildRefusal>
    requires { kind_of laid.now ≡ kind.Group count }
    ensures { steps.Does result b.new (spec.offsets id 0 (members_of laid.now) b.old) }
{
    for i in 0..count {
        b.decorate(id, Some(i), decoration::OFFSET, Some(laid.offset(i)))?;
    }
    Ok(())
}

/// A new struct type whose members stand where a layout has them.
fn struct_by(b: &mut Builder, laid: &Laid, count: u32, members: &[u32]) -> Result<u32, BuildRefusal>
    requires { kind_of laid.now ≡ kind.Group count }
    ensures { steps.Does result b.new (spec.struct_by (members_of laid.now) members.now b.old) }
{
    let id = b.struct_type(members)?;
    offsets(b, id, laid, count)?;
    Ok(id)
}

fn types_of(alloc: Global, members: &Members) -> Result<Types, Memory>
    ensures { IfOk result (λ all. all ≡ spec.types_of members.now) }
{
    let mut all = List::new(alloc);
    for k in 0..members.len() {
        all.push(copy(alloc, &members[k].ty)?)?;
    }
    Ok(all)
}

fn members_of_struct(alloc: Global, structs: &Structs, number: u32) -> Result<Types, Memory>
    ensures { IfOk result (λ all. all ≡ spec.types_in (slice_get structs.now number)) }
{
    if number as usize >= structs.len() {
        return Ok(List::new(alloc));
    }
    types_of(alloc, &structs[number as usize].members)
}

/// The types of the members of a struct; no other type has any.
#[tactic(auto, using(crate::proofs::Parts::parts_step))]
fn member_types(alloc: Global, structs: &Structs, ty: &Ty) -> Result<Types, Memory>
    ensures { IfOk result (λ all. all ≡ spec.member_types structs.now ty.now) }
{
    match ty {
        Ty::Struct(number) => members_of_struct(alloc, structs, *number),
        _ => Ok(List::new(alloc)),
    }
}

/// The id of the type that stands for a type where a layout has it, which is put where it is not known: an Offset for each member of a struct and
/// an ArrayStride for each array are those of the layout, and a truth value is a number. What is known is of one layout rule, by which a
/// type has one layout.
#[cycle(laid)]
pub(crate) fn type_laid(
    alloc: Global,
    b: &mut Builder,
    known: &mut TypeIds,
    structs: &Structs,
    laid: &Laid,
    ty: &Ty,
) -> Result<u32, BuildRefusal>
    ensures { Does result b.new known.new (spec.type_laid structs.now laid.now ty.now known.old b.old) }
{
    match laid.kind() {
        Kind::Leaf(_) => stored_as(b, known, ty),
        Kind::Array => once_laid(alloc, b, known, structs, laid, ty),
        Kind::Group(_) => once_laid(alloc, b, known, structs, laid, ty),
    }
}

/// An array or a struct, which is put where it is not known.
#[cycle(laid)]
fn once_laid(
    alloc: Global,
    b: &mut Builder,
    known: &mut TypeIds,
    structs: &Structs,
    laid: &Laid,
    ty: &Ty,
) -> Result<u32, BuildRefusal>
    ensures { Does result b.new known.new (puts.once ty.now (spec.anew structs.now laid.now ty.now) known.old b.old) }
{
    if let Some(id) = find_type(known.as_slice(), ty) {
        return Ok(id);
    }
    let id = anew(alloc, b, known, structs, laid, ty)?;
    keep(alloc, known, ty, id)?;
    Ok(id)
}

#[cycle(laid)]
fn anew(
    alloc: Global,
    b: &mut Builder,
    known: &mut TypeIds,
    structs: &Structs,
    laid: &Laid,
    ty: &Ty,
) -> Result<u32, BuildRefusal>
    ensures { Does result b.new known.new (spec.anew structs.now laid.now ty.now known.old b.old) }
{
    match laid.kind() {
        Kind::Leaf(_) => Err(BuildRefusal::Memory),
        Kind::Array => strided(alloc, b, known, structs, laid.part(0), laid.stride(), ty),
        Kind::Group(count) => {
            let types = member_types(alloc, structs, ty)?;
            grouped(alloc, b, known, structs, laid, count, &types)
        }
    }
}

/// An array or a runtime array of elements that lie so.
#[cycle(laid)]
#[tactic(auto, using(crate::proofs::Parts::strided_step))]
fn strided(
    alloc: Global,
    b: &mut Builder,
    known: &mut TypeIds,
    structs: &Structs,
    element: &Laid,
    stride: u32,
    ty: &Ty,
) -> Result<u32, BuildRefusal>
    ensures { Does result b.new known.new (spec.strided stride (spec.type_laid structs.now element.now) (out-Ty ty.now) known.old b.old) }
{
    match ty {
        Ty::Array(t, count) => {
            let id = type_laid(alloc, b, known, structs, element, t.get())?;
            array_by(b, stride, id, *count)
        }
        Ty::Runtime(t) => {
            let id = type_laid(alloc, b, known, structs, element, t.get())?;
            b.runtime_type(id, stride)
        }
        _ => Err(BuildRefusal::Memory),
    }
}

/// A new struct type of members of these types that lie so.
#[cycle(laid)]
pub(crate) fn grouped(
    alloc: Global,
    b: &mut Builder,
    known: &mut TypeIds,
    structs: &Structs,
    laid: &Laid,
    count: u32,
    types: &Types,
) -> Result<u32, BuildRefusal>
    requires { kind_of laid.now ≡ kind.Group count }
    ensures { Does result b.new known.new (spec.grouped (members_of laid.now) (spec.types_laid structs.now (members_of laid.now) types.now) known.old b.old) }
{
    let members = types_laid(alloc, b, known, structs, laid, count, types)?;
    struct_by(b, laid, count, members.as_slice())
}

#[cycle(laid)]
fn types_laid(
    alloc: Global,
    b: &mut Builder,
    known: &mut TypeIds,
    structs: &Structs,
    laid: &Laid,
    count: u32,
    types: &Types,
) -> Result<Ids, BuildRefusal>
    requires { kind_of laid.now ≡ kind.Group count }
    ensures { Does result b.new known.new (spec.types_laid structs.now (members_of laid.now) types.now known.old b.old) }
{
    let mut ids = List::new(alloc);
    for i in 0..count {
        if i as usize >= types.len() {
            return Err(BuildRefusal::Memory);
        }
        ids.push(type_laid(alloc, b, known, structs, laid.part(i), &types[i as usize])?)?;
    }
    Ok(ids)
}
