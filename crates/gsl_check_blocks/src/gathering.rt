//! The members of a block.

ghost use Rattle.std.specs.Prelude.{◌≡◌, ◌<◌, ◌+◌, ◌&&◌, [], IfOk, drop, false, true, length};
ghost use Rattle.gsl_base.specs.Checked.{Gives, GivesBy};
ghost use Rattle.gsl_types.specs.Known.{AreStructs};
ghost use Rattle.gsl_layout.specs.Extents.{ArePlain};
ghost use Rattle.gsl_makers.specs.Heights.{AreHeights};
ghost use Rattle.gsl_check_blocks.specs.Blocks as spec;
ghost use Rattle.gsl_check_blocks.specs.Stands.{Stand, Stands};

use crate::frame::Frame;
use crate::member::{may_be_member, may_stand, member_of, member_type};
use crate::so_far::SoFar;
use gsl_base::Refusal;
use gsl_check_expr::{Env, Written, declared, written_type};
use gsl_qualifiers::{Qualified, Role, qualify};
use gsl_syntax::{Declared, Member, Name};
use gsl_tree::BlockMembers;
use std::alloc::Global;

/// Puts a member behind others, if it may stand there.
#[tactic(auto, unfolding(crate::specs::Blocks::with_member))]
fn push_member(
    alloc: Global,
    env: &Env,
    frame: &Frame,
    last: bool,
    q: &Qualified,
    name: &Name,
    written: Written,
    all: SoFar,
) -> Result<SoFar, Refusal>
    requires known { AreStructs env.now.scene.structs }
    requires plain { ArePlain env.now.scene.structs }
    requires heights { AreHeights env.now.scene.structs env.now.heights }
    requires stand { Stands frame.now.std140 env.now.scene.structs false all }
    ensures gives { GivesBy (λ more. more.members) result (spec.with_member frame.now last env.now q.now name.now written all.members) }
    ensures stand { IfOk result (Stands frame.now.std140 env.now.scene.structs last) }
{
    may_be_member(frame, last, env, name, &written, &all)?;
    let ty = member_type(alloc, written)?;
    let member = member_of(alloc, frame, q, name, ty)?;
    let end = may_stand(env, frame, q, name, &all, &member)?;
    Ok(all.with(alloc, member, end)?)
}

/// Puts a member behind others, where a type stands before its name.
#[tactic(auto, unfolding(crate::specs::Blocks::with_name))]
fn push_name(
    alloc: Global,
    env: &Env,
    frame: &Frame,
    last: bool,
    q: &Qualified,
    base: &Written,
    one: &Declared,
    all: SoFar,
) -> Result<SoFar, Refusal>
    requires known { AreStructs env.now.scene.structs }
    requires plain { ArePlain env.now.scene.structs }
    requires heights { AreHeights env.now.scene.structs env.now.heights }
    requires stand { Stands frame.now.std140 env.now.scene.structs false all }
    ensures gives { GivesBy (λ more. more.members) result (spec.with_name frame.now last env.now q.now base.now one.now all.members) }
    ensures stand { IfOk result (Stands frame.now.std140 env.now.scene.structs last) }
{
    let written = declared(alloc, env, base, one.dims.as_slice())?;
    push_member(alloc, env, frame, last, q, &one.name, written, all)
}

/// Whether no item stands behind that of a number.
fn is_last<T>(items: &[T], k: usize) -> bool
    requires within { k < length items.now }
    ensures { result ≡ spec.is_end (drop (k + 1) items.now) }
{
    k + 1 == items.len()
}

/// Whether no name stands behind that of a number, where no line may either.
fn is_ended(last: bool, names: &[Declared], k: usize) -> bool
    requires within { k < length names.now }
    ensures { result ≡ (last && spec.is_end (drop (k + 1) names.now)) }
{
    last && is_last(names, k)
}

/// Puts the members of one type behind others.
fn push_names(
    alloc: Global,
    env: &Env,
    frame: &Frame,
    last: bool,
    q: &Qualified,
    base: &Written,
    names: &[Declared],
    all: SoFar,
) -> Result<SoFar, Refusal>
    requires known { AreStructs env.now.scene.structs }
    requires plain { ArePlain env.now.scene.structs }
    requires heights { AreHeights env.now.scene.structs env.now.heights }
    requires stand { Stands frame.now.std140 env.now.scene.structs false all }
    ensures gives { GivesBy (λ more. more.members) result (spec.with_names frame.now last env.now q.now base.now names.now all.members) }
    ensures stand { IfOk result (Stands frame.now.std140 env.now.scene.structs last) }
{
    let mut all = all;
    for k in 0..names.len() {
        let ended = is_ended(last, names, k);
        all = push_name(alloc, env, frame, ended, q, base, &names[k], all)?;
    }
    Ok(all)
}

/// Puts the members of one line behind others.
#[tactic(auto, unfolding(crate::specs::Blocks::with_line))]
fn push_line(
    alloc: Global,
    env: &Env,
    frame: &Frame,
    last: bool,
    line: &Member,
    all: SoFar,
) -> Result<SoFar, Refusal>
    requires known { AreStructs env.now.scene.structs }
    requires plain { ArePlain env.now.scene.structs }
    requires heights { AreHeights env.now.scene.structs env.now.heights }
    requires stand { Stands frame.now.std140 env.now.scene.structs false all }
    ensures gives { GivesBy (λ more. more.members) result (spec.with_line frame.now last env.now line.now all.members) }
    ensures stand { IfOk result (Stands frame.now.std140 env.now.scene.structs last) }
{
    let q = qualify(
        alloc,
        env,
        Role::Member(frame.buffer),
        line.quals.as_slice(),
    )?;
    let base = written_type(alloc, env, &line.ty)?;
    push_names(
        alloc,
        env,
        frame,
        last,
        &q,
        &base,
        line.names.as_slice(),
        all,
    )
}

/// Puts the members of all lines behind others.
fn push_lines(
    alloc: Global,
    env: &Env,
    frame: &Frame,
    lines: &[Member],
    all: SoFar,
) -> Result<SoFar, Refusal>
    requires known { AreStructs env.now.scene.structs }
    requires plain { ArePlain env.now.scene.structs }
    requires heights { AreHeights env.now.scene.structs env.now.heights }
    requires stand { Stands frame.now.std140 env.now.scene.structs false all }
    ensures gives { GivesBy (λ more. more.members) result (spec.with_lines frame.now env.now lines.now all.members) }
    ensures stand { IfOk result (Stands frame.now.std140 env.now.scene.structs true) }
{
    let mut all = all;
    for k in 0..lines.len() {
        all = push_line(alloc, env, frame, is_last(lines, k), &lines[k], all)?;
    }
    Ok(all)
}

/// The members of a block, from the first line to the last.
pub fn members_of(
    alloc: Global,
    env: &Env,
    frame: &Frame,
    lines: &[Member],
) -> Result<BlockMembers, Refusal>
    requires known { AreStructs env.now.scene.structs }
    requires plain { ArePlain env.now.scene.structs }
    requires heights { AreHeights env.now.scene.structs env.now.heights }
    ensures gives { Gives result (spec.with_lines frame.now env.now lines.now []) }
    ensures stand { IfOk result (λ members. Stand frame.now.std140 env.now.scene.structs true members) }
{
    let none = SoFar::new(alloc, frame.std140, &env.scene.structs)?;
    let all = push_lines(alloc, env, frame, lines, none)?;
    Ok(all.members)
}
