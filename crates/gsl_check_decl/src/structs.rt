//! Structs.

ghost use Rattle.std.specs.Prelude.{◌≡◌, ◌<◌, [], IfOk, IsTrue, length};
ghost use Rattle.std.specs.List.{AllByRecursion};
ghost use Rattle.gsl_base.specs.Checked.{Gives, GivesBy};
ghost use Rattle.gsl_types.specs.Known.{AreStructs, IsSound};
ghost use Rattle.gsl_types.specs.declared.ty.Member.{Member as OneMember};
ghost use Rattle.gsl_layout.specs.Extents.{plain};
ghost use Rattle.gsl_makers.specs.Heights.{AreHeights};
ghost use Rattle.gsl_check_decl.specs.Declaring as declaring;
ghost use Rattle.gsl_check_decl.specs.Structs as spec;

use crate::asked::{is_declared, is_high, is_reserved, may_be_had};
use crate::gathered::Gathered;
use crate::heights::highest;
use crate::sound::SoundEnv;
use gsl_base::{Code, Memory, Refusal, Text};
use gsl_check_expr::{Env, Written, declared, whole_type, written_type};
use gsl_syntax::{Declared, Dim, Name, Struct, StructMember};
use gsl_types::{Member, Members, Ty};
use gsl_typing::refuse;
use std::alloc::Global;

/// Whether a member may be declared behind others.
#[tactic(auto, unfolding(crate::specs::Structs::may_be_member))]
fn may_be_member(env: &Env, name: &Name, ty: &Ty, members: &Gathered) -> Result<(), Refusal>
    requires heights { AreHeights env.now.scene.structs env.now.heights }
    ensures gives { Gives result (spec.may_be_member env.now.scene name.now ty.now members.now) }
    ensures sound { IfOk result (λ _. IsSound (length env.now.scene.structs) ty.now) }
    ensures plain { IfOk result (λ _. IsTrue (plain ty.now)) }
{
    if members.has(&name.text) {
        return Err(refuse(name.place, Code::E0403));
    }
    if is_reserved(&name.text) {
        return Err(refuse(name.place, Code::E0404));
    }
    if !may_be_had(&env.scene, ty) {
        return Err(refuse(name.place, Code::E0510));
    }
    if is_high(env, ty) {
        return Err(refuse(name.place, Code::E0908));
    }
    Ok(())
}

/// A member of a name and a type.
fn member_of(alloc: Global, name: &Text, ty: Ty) -> Result<Member, Memory>
    ensures { IfOk result (λ member. member ≡ record { name = name.now; ty = ty }) }
{
    let name = Text::from_str(alloc, name.as_str())?;
    Ok(Member { name, ty })
}

/// Puts a member behind others, if it may be declared there.
fn push_member(
    alloc: Global,
    env: &Env,
    name: &Name,
    ty: Ty,
    members: &mut Gathered,
) -> Result<(), Refusal>
    requires heights { AreHeights env.now.scene.structs env.now.heights }
    ensures { GivesBy (λ _. members.new) result (spec.with_member env.now.scene name.now ty members.old) }
{
    may_be_member(env, name, &ty, members)?;
    let member = member_of(alloc, &name.text, ty)?;
    members.push(alloc, member)?;
    Ok(())
}

/// The type of a name that is declared with brackets, which has all of its sizes.
pub fn declared_whole(alloc: Global, env: &Env, base: &Written, dims: &[Dim]) -> Result<Ty, Refusal>
    requires known { AreStructs env.now.scene.structs }
    requires heights { AreHeights env.now.scene.structs env.now.heights }
    ensures { Gives result (declaring.declared_whole env.now dims.now base.now) }
{
    let ty = declared(alloc, env, base, dims)?;
    whole_type(ty)
}

/// Puts a member behind others, where a type stands before its name.
#[tactic(auto, unfolding(crate::specs::Structs::with_name))]
fn push_name(
    alloc: Global,
    env: &Env,
    base: &Written,
    one: &Declared,
    members: &mut Gathered,
) -> Result<(), Refusal>
    requires known { AreStructs env.now.scene.structs }
    requires heights { AreHeights env.now.scene.structs env.now.heights }
    ensures { GivesBy (λ _. members.new) result (spec.with_name env.now base.now one.now members.old) }
{
    let ty = declared_whole(alloc, env, base, one.dims.as_slice())?;
    push_member(alloc, env, &one.name, ty, members)
}

/// Puts the members of one type behind others.
fn push_names(
    alloc: Global,
    env: &Env,
    base: &Written,
    names: &[Declared],
    members: &mut Gathered,
) -> Result<(), Refusal>
    requires known { AreStructs env.now.scene.structs }
    requires heights { AreHeights env.now.scene.structs env.now.heights }
    ensures { GivesBy (λ _. members.new) result (spec.with_names env.now base.now names.now members.old) }
{
    for k in 0..names.len() {
        push_name(alloc, env, base, &names[k], members)?;
    }
    Ok(())
}

/// Puts the members of one line behind others.
#[tactic(auto, unfolding(crate::specs::Structs::with_line))]
fn push_line(
    alloc: Global,
    env: &Env,
    line: &StructMember,
    members: &mut Gathered,
) -> Result<(), Refusal>
    requires known { AreStructs env.now.scene.structs }
    requires heights { AreHeights env.now.scene.structs env.now.heights }
    ensures { GivesBy (λ _. members.new) result (spec.with_line env.now line.now members.old) }
{
    let base = written_type(alloc, env, &line.ty)?;
    push_names(alloc, env, &base, line.names.as_slice(), members)
}

/// Puts the members of all lines behind others.
fn push_lines(
    alloc: Global,
    env: &Env,
    lines: &[StructMember],
    members: &mut Gathered,
) -> Result<(), Refusal>
    requires known { AreStructs env.now.scene.structs }
    requires heights { AreHeights env.now.scene.structs env.now.heights }
    ensures { GivesBy (λ _. members.new) result (spec.with_lines env.now lines.now members.old) }
{
    for k in 0..lines.len() {
        push_line(alloc, env, &lines[k], members)?;
    }
    Ok(())
}

/// The members of a struct.
pub fn members_of(alloc: Global, env: &Env, lines: &[StructMember]) -> Result<Members, Refusal>
    requires known { AreStructs env.now.scene.structs }
    requires heights { AreHeights env.now.scene.structs env.now.heights }
    ensures gives { Gives result (spec.with_lines env.now lines.now []) }
    ensures sound { IfOk result (λ members. AllByRecursion (λ (member : OneMember). IsSound (length env.now.scene.structs) member.ty) members) }
    ensures plain { IfOk result (λ members. AllByRecursion (λ (member : OneMember). IsTrue (plain member.ty)) members) }
{
    let mut members = Gathered::new(alloc);
    push_lines(alloc, env, lines, &mut members)?;
    Ok(members.into_members())
}

/// How high a struct of a name and members is, which may be declared.
#[tactic(auto, unfolding(crate::specs::Structs::may_be_struct, crate::specs::Structs::is_too_large))]
pub fn may_be_struct(env: &Env, name: &Name, members: &[Member]) -> Result<u32, Refusal>
    requires heights { AreHeights env.now.scene.structs env.now.heights }
    ensures gives { Gives result (spec.may_be_struct name.now members.now env.now) }
    ensures some { IfOk result (λ _. 0 < length members.now) }
    ensures height { IfOk result (λ h. h ≡ spec.height_over env.now.scene.structs members.now) }
{
    if is_declared(env, &name.text) {
        return Err(refuse(name.place, Code::E0403));
    }
    if is_reserved(&name.text) {
        return Err(refuse(name.place, Code::E0404));
    }
    if members.is_empty() {
        return Err(refuse(name.place, Code::E0510));
    }
    if members.len() > 16383 {
        return Err(refuse(name.place, Code::E0908));
    }
    match highest(env, members, 63) {
        Some(inner) => Ok(inner + 1),
        None => Err(refuse(name.place, Code::E0908)),
    }
}

/// Declares a struct behind its members. The answer is its number.
#[tactic(auto, unfolding(crate::specs::Structs::structured))]
pub fn structured(alloc: Global, env: &mut SoundEnv, s: &Struct) -> Result<u32, Refusal>
    ensures { GivesBy (λ number. (number, env.new)) result (spec.structured s.now env.old) }
{
    let members = members_of(alloc, env.get(), s.members.as_slice())?;
    let height = may_be_struct(env.get(), &s.name, members.as_slice())?;
    Ok(env.declare_struct(alloc, &s.name.text, members, height)?)
}
