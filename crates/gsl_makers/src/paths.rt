//! Indexes, members, swizzles and lengths over typed parts.

ghost use Rattle.std.specs.Prelude.{◌≡◌, IfOk};
ghost use Rattle.gsl_base.specs.Checked.{Gives};
ghost use Rattle.gsl_tree.specs.Expressions as tree_spec;
ghost use Rattle.gsl_tree.specs.Trees.{typed};
ghost use Rattle.gsl_types.specs.declared.ty.Ty.TheViews.{out-Ty};
ghost use Rattle.gsl_makers.specs.Paths as spec;

use crate::members::{Found, block_member_of, struct_member};
use crate::swizzles::swizzle;
use gsl_base::{Boxed, Code, Memory, Place, Refusal, Text};
use gsl_compute::word_in;
use gsl_fold::constant;
use gsl_tree::{Expr, ExprKind, Folded};
use gsl_types::{Scalar, Ty};
use gsl_typing::{Part, Scene, copy, is_integer, is_unread, of_shape, refuse};
use gsl_values::Lanes;
use std::alloc::Global;

/// What a name picks of a type.
#[derive(Drop)]
pub enum Picked {
    Nothing,
    /// A member of a struct, by its number, with its type.
    Field(u32, Ty),
    /// Components of a scalar or vector, by their positions, with their type.
    Components(Lanes, Ty),
}

fn inside(place: Place, ty: Ty, kind: ExprKind, fixed: bool) -> Part
    ensures { result ≡ record { expr = typed place ty kind; fixed = fixed } }
{
    Part {
        expr: Expr { ty, place, kind },
        fixed,
    }
}

/// What an index into a type gives.
#[tactic(auto, unfolding(crate::specs::Paths::element))]
fn element_of(alloc: Global, ty: &Ty) -> Result<Option<Ty>, Memory>
    ensures { IfOk result (λ element. element ≡ spec.element ty.now) }
{
    match ty {
        Ty::Vector(scalar, _) => Ok(Some(Ty::One(*scalar))),
        Ty::Array(element, _) => Ok(Some(copy(alloc, element.get())?)),
        Ty::Runtime(element) => Ok(Some(copy(alloc, element.get())?)),
        _ => Ok(None),
    }
}

/// Whether a part is an integer scalar.
pub fn is_index(i: &Part) -> bool
    ensures { result ≡ spec.is_index i.now }
{
    match &i.expr.ty {
        Ty::One(scalar) => is_integer(*scalar),
        _ => false,
    }
}

/// Whether a word of a type is in the range of what it is an index into.
fn word_in_range(base: &Ty, index: &Ty, word: u32) -> bool
    ensures { result ≡ tree_spec.is_in_range_kind (out-Ty base.now) (out-Ty index.now) word }
{
    match (base, index) {
        (Ty::Vector(_, count) | Ty::Array(_, count), _) => word < *count,
        (Ty::Runtime(_), Ty::One(Scalar::Int)) => word < 0x8000_0000,
        _ => true,
    }
}

/// Whether an index, if it is constant, is in the range of what it goes into.
#[tactic(auto, unfolding(crate::specs::Paths::in_range))]
fn in_range(folded: &Folded, base: &Ty, index: &Ty) -> bool
    ensures { result ≡ spec.in_range folded.now base.now index.now }
{
    match folded {
        Folded::Known(value) => word_in_range(base, index, word_in(value)),
        Folded::NotConstant | Folded::Free => true,
    }
}

/// `a[i]`
#[tactic(auto, unfolding(crate::specs::Paths::index))]
pub fn index(alloc: Global, scene: &Scene, place: Place, a: Part, i: Part) -> Result<Part, Refusal>
    ensures { Gives result (spec.index scene.now place a i) }
{
    if is_unread(scene, &i) {
        return Err(refuse(place, Code::E0507));
    }
    let ty = match element_of(alloc, &a.expr.ty)? {
        Some(ty) => ty,
        None => return Err(refuse(place, Code::E0508)),
    };
    if !is_index(&i) {
        return Err(refuse(place, Code::E0508));
    }
    let folded = constant(alloc, &scene.structs, &scene.consts, &i.expr)?;
    if !in_range(&folded, &a.expr.ty, &i.expr.ty) {
        return Err(refuse(place, Code::E0606));
    }
    let fixed = a.fixed;
    let base = Boxed::new(alloc, a.expr)?;
    let at = Boxed::new(alloc, i.expr)?;
    Ok(inside(place, ty, ExprKind::Index(base, at), fixed))
}

fn field(found: Option<Found>) -> Picked
    ensures { result ≡ spec.field found }
{
    match found {
        Some((number, ty)) => Picked::Field(number, ty),
        None => Picked::Nothing,
    }
}

fn components_of(scalar: Scalar, lanes: Option<Lanes>) -> Picked
    ensures { result ≡ spec.components_of scalar lanes }
{
    match lanes {
        Some(lanes) => Picked::Components(lanes, of_shape((scalar, lanes.count))),
        None => Picked::Nothing,
    }
}

/// What a name picks of a type: a member of a struct, or components of a scalar or vector.
#[tactic(auto, unfolding(crate::specs::Paths::picked))]
fn pick(alloc: Global, scene: &Scene, ty: &Ty, name: &Text) -> Result<Picked, Memory>
    ensures { IfOk result (λ p. p ≡ spec.picked scene.now ty.now name.now) }
{
    match ty {
        Ty::Struct(number) => Ok(field(struct_member(alloc, &scene.structs, *number, name)?)),
        Ty::One(scalar) => Ok(components_of(*scalar, swizzle(1, name))),
        Ty::Vector(scalar, count) => Ok(components_of(*scalar, swizzle(*count, name))),
        _ => Ok(Picked::Nothing),
    }
}

/// `a.NAME`
#[tactic(auto, unfolding(crate::specs::Paths::member))]
pub fn member(
    alloc: Global,
    scene: &Scene,
    place: Place,
    a: Part,
    name: &Text,
) -> Result<Part, Refusal>
    ensures { Gives result (spec.member scene.now place a name.now) }
{
    let fixed = a.fixed;
    match pick(alloc, scene, &a.expr.ty, name)? {
        Picked::Nothing => Err(refuse(place, Code::E0506)),
        Picked::Field(number, ty) => {
            let base = Boxed::new(alloc, a.expr)?;
            Ok(inside(place, ty, ExprKind::Member(base, number), fixed))
        }
        Picked::Components(lanes, ty) => {
            let base = Boxed::new(alloc, a.expr)?;
            Ok(inside(place, ty, ExprKind::Swizzle(base, lanes), fixed))
        }
    }
}

/// `b.NAME`, where `b` is the instance name of the block of a number.
#[tactic(auto, unfolding(crate::specs::Paths::block_member))]
pub fn block_member(
    alloc: Global,
    scene: &Scene,
    place: Place,
    block: u32,
    name: &Text,
) -> Result<Part, Refusal>
    ensures { Gives result (spec.block_member scene.now place block name.now) }
{
    match block_member_of(alloc, &scene.blocks, block, name)? {
        Some((number, ty)) => Ok(inside(place, ty, ExprKind::BlockMember(block, number), false)),
        None => Err(refuse(place, Code::E0506)),
    }
}

fn has_length(a: &Part) -> bool
    ensures { result ≡ spec.has_length a.now }
{
    match &a.expr.ty {
        Ty::Vector(_, _) | Ty::Array(_, _) | Ty::Runtime(_) => true,
        _ => false,
    }
}

/// `a.NAME()`: the length of an array or a vector.
#[tactic(auto, unfolding(crate::specs::Paths::method))]
pub fn method(alloc: Global, place: Place, a: Part, name: &Text) -> Result<Part, Refusal>
    ensures { Gives result (spec.method place a name.now) }
{
    if name.as_str() != "length" {
        return Err(refuse(place, Code::E0506));
    }
    if !has_length(&a) {
        return Err(refuse(place, Code::E0509));
    }
    let of = Boxed::new(alloc, a.expr)?;
    Ok(inside(place, Ty::One(Scalar::Int), ExprKind::Length(of), false))
}
