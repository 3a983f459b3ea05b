//! One member of a block.

ghost use Rattle.std.specs.Prelude.{◌≡◌, ◌++◌, ◌∷◌, [], IfOk, IsTrue, Some, false};
ghost use Rattle.gsl_base.specs.Checked.{Gives, GivesBy};
ghost use Rattle.gsl_layout.specs.Extents.{plain};
ghost use Rattle.gsl_makers.specs.Heights.{AreHeights};
ghost use Rattle.gsl_check_blocks.specs.Blocks as spec;
ghost use Rattle.gsl_check_blocks.specs.Stands.{EndsBehind, HasNames, IsMemberType, Stands};

use crate::frame::Frame;
use crate::so_far::SoFar;
use gsl_base::{Boxed, Code, Memory, Place, Refusal, Text};
use gsl_check_decl::{is_declared, is_high, is_reserved, may_be_had};
use gsl_check_expr::{Env, Written};
use gsl_qualifiers::Qualified;
use gsl_syntax::Name;
use gsl_tree::BlockMember;
use gsl_types::Ty;
use gsl_typing::refuse;
use std::alloc::Global;

/// Whether one of the members has a name.
#[tactic(auto, unfolding(crate::specs::Blocks::has_member))]
pub fn has_member(members: &[BlockMember], name: &Text) -> bool
    ensures { result ≡ spec.has_member members.now name.now }
{
    members.iter().any(|member| member.name == *name)
}

/// Whether a member of this block has a name, or, where its members are names of their own, it is declared already.
#[tactic(auto, unfolding(crate::specs::Blocks::is_taken))]
pub fn is_taken(frame: &Frame, env: &Env, all: &SoFar, name: &Text) -> bool
    requires names { HasNames all.now }
    ensures { result ≡ spec.is_taken frame.now env.now all.now.members name.now }
{
    all.has(name) || (frame.bare && is_declared(env, name))
}

/// Whether it is a runtime array that is not the last member of a buffer block.
#[tactic(auto, unfolding(crate::specs::Blocks::is_misplaced_array))]
pub fn is_misplaced_array(frame: &Frame, last: bool, written: &Written) -> bool
    ensures { result ≡ spec.is_misplaced_array frame.now last written.now }
{
    match written {
        Written::Whole(_) => false,
        Written::Open(_, _) => !(frame.buffer && last),
    }
}

/// The type that must be one of variables: of a runtime array that of its elements.
fn had_type(written: &Written) -> &Ty
    ensures { result.now ≡ spec.had_type written.now }
{
    match written {
        Written::Whole(ty) => ty,
        Written::Open(_, element) => element,
    }
}

/// Whether a member may be declared behind others, by its name and its type.
#[tactic(auto, unfolding(crate::specs::Blocks::may_be_member))]
pub fn may_be_member(
    frame: &Frame,
    last: bool,
    env: &Env,
    name: &Name,
    written: &Written,
    all: &SoFar,
) -> Result<(), Refusal>
    requires names { HasNames all.now }
    ensures gives { Gives result (spec.may_be_member frame.now last env.now name.now written.now all.now.members) }
    ensures may { IfOk result (λ _. IsMemberType env.now.scene.structs (spec.member_type written.now)) }
    ensures plain { IfOk result (λ _. last ≡ false → IsTrue (plain (spec.member_type written.now))) }
{
    if is_taken(frame, env, all, &name.text) {
        return Err(refuse(name.place, Code::E0403));
    }
    if is_reserved(&name.text) {
        return Err(refuse(name.place, Code::E0404));
    }
    let had = may_be_had(&env.scene, had_type(written));
    if !had {
        return Err(refuse(name.place, Code::E0510));
    }
    let open = is_misplaced_array(frame, last, written);
    if open {
        return Err(refuse(name.place, Code::E0708));
    }
    Ok(())
}

/// The type of a member: one whose size is left out is a runtime array.
pub(crate) fn member_type(alloc: Global, written: Written) -> Result<Ty, Memory>
    ensures { IfOk result (λ t. t ≡ spec.member_type written) }
{
    match written {
        Written::Whole(ty) => Ok(ty),
        Written::Open(_, element) => Ok(Ty::Runtime(Boxed::new(alloc, element)?)),
    }
}

/// The first of two numbers that is stated.
fn either(one: Option<u32>, other: Option<u32>) -> Option<u32>
    ensures { result ≡ spec.either one other }
{
    match one {
        Some(n) => Some(n),
        None => other,
    }
}

fn offset_in(offset: Option<(Place, u32)>) -> Option<u32>
    ensures { result ≡ spec.offset_in offset }
{
    match offset {
        Some((_, n)) => Some(n),
        None => None,
    }
}

/// Where a wrong `offset` is told of.
fn offset_place(place: Place, offset: Option<(Place, u32)>) -> Place
    ensures { result ≡ spec.offset_place place offset }
{
    match offset {
        Some((at, _)) => at,
        None => place,
    }
}

/// The member that is declared.
pub(crate) fn member_of(
    alloc: Global,
    frame: &Frame,
    q: &Qualified,
    name: &Name,
    ty: Ty,
) -> Result<BlockMember, Memory>
    ensures { IfOk result (λ member. member ≡ spec.member_of frame.now q.now name.now ty) }
{
    let text = Text::from_str(alloc, name.text.as_str())?;
    let block = &frame.said;
    Ok(BlockMember {
        name: text,
        ty,
        readonly: q.readonly || block.readonly,
        writeonly: q.writeonly || block.writeonly,
        coherent: q.coherent || block.coherent,
        volatile: q.volatile || block.volatile,
        restrict: q.restrict || block.restrict,
        offset: offset_in(q.offset),
        align: either(q.align, block.align),
        place: name.place,
    })
}

/// The end of a member that may stand behind others; a wrong `offset` is the fault of that name.
#[tactic(auto, unfolding(crate::specs::Blocks::may_stand, crate::specs::Blocks::is_misplaced))]
pub fn may_stand(
    env: &Env,
    frame: &Frame,
    q: &Qualified,
    name: &Name,
    all: &SoFar,
    member: &BlockMember,
) -> Result<u64, Refusal>
    requires heights { AreHeights env.now.scene.structs env.now.heights }
    requires stand { Stands frame.now.std140 env.now.scene.structs false all.now }
    requires may { IsMemberType env.now.scene.structs member.now.ty }
    ensures gives { GivesBy (λ _. tt) result (spec.may_stand env.now frame.now q.now name.now all.now.members member.now) }
    ensures ends { IfOk result (λ end. EndsBehind (Some end) frame.now.std140 env.now.scene.structs (all.now.members ++ member.now ∷ [])) }
{
    let Some(end) = all.end_with(frame.std140, &env.scene.structs, member) else {
        return Err(refuse(offset_place(name.place, q.offset), Code::E0709));
    };
    if is_high(env, &member.ty) {
        return Err(refuse(name.place, Code::E0908));
    }
    Ok(end)
}
