//! A block, with what is declared by it.

ghost use Rattle.std.specs.Prelude.{◌≡◌, IfOk, nat_lt, true, unwrap_or};
ghost use Rattle.gsl_base.specs.Checked.{Gives, GivesBy};
ghost use Rattle.gsl_layout.specs.Layout.{need as need_in};
ghost use Rattle.gsl_tree.specs.Laying.{layout_of};
ghost use Rattle.gsl_tree.specs.WellTyped.{push_blocks};
ghost use Rattle.gsl_check_blocks.specs.Blocks as spec;
ghost use Rattle.gsl_check_blocks.specs.Stands.{Needs, Stand, with_draft};

use crate::frame::Frame;
use crate::gathering::members_of;
use crate::member::has_member;
use crate::standing::need_of;
use gsl_base::{Code, Memory, Refusal, Text};
use gsl_check_decl::{SoundEnv, is_declared, is_reserved};
use gsl_check_expr::Env;
use gsl_qualifiers::{Qualified, Role, qualify};
use gsl_syntax::{Member, Name, Qual};
use gsl_tree::{Block, BlockKind, BlockMember, BlockMembers};
use gsl_typing::refuse;
use std::alloc::Global;

/// What a block is for.
pub fn kind_of(role: Role) -> BlockKind
    ensures { result ≡ spec.kind_of role }
{
    match role {
        Role::Buffer => BlockKind::Buffer,
        Role::Push => BlockKind::Push,
        _ => BlockKind::Uniform,
    }
}

fn is_uniform(kind: BlockKind) -> bool
    ensures { result ≡ spec.is_uniform kind }
{
    match kind {
        BlockKind::Uniform => true,
        BlockKind::Buffer | BlockKind::Push => false,
    }
}

fn is_buffer(kind: BlockKind) -> bool
    ensures { result ≡ spec.is_buffer kind }
{
    match kind {
        BlockKind::Buffer => true,
        BlockKind::Uniform | BlockKind::Push => false,
    }
}

fn is_push(kind: BlockKind) -> bool
    ensures { result ≡ spec.is_push kind }
{
    match kind {
        BlockKind::Push => true,
        BlockKind::Uniform | BlockKind::Buffer => false,
    }
}

/// What stands around the members: where no layout is stated, uniform blocks have std140 and all others std430.
pub fn frame_of(kind: BlockKind, instance: &Option<Name>, said: Qualified) -> Frame
    ensures { result ≡ spec.frame_of kind instance.now said }
{
    Frame {
        buffer: is_buffer(kind),
        bare: instance.is_none(),
        std140: said.std140.unwrap_or(is_uniform(kind)),
        said,
    }
}

/// Whether an instance name may be declared.
pub fn may_be_instance(env: &Env, instance: &Option<Name>) -> Result<(), Refusal>
    ensures { Gives result (spec.may_be_instance env.now instance.now) }
{
    match instance {
        None => Ok(()),
        Some(name) => {
            if is_declared(env, &name.text) {
                return Err(refuse(name.place, Code::E0403));
            }
            if is_reserved(&name.text) {
                return Err(refuse(name.place, Code::E0404));
            }
            Ok(())
        }
    }
}

/// The text of a name, if there is one.
fn text_of(alloc: Global, name: &Option<Name>) -> Result<Option<Text>, Memory>
    ensures { IfOk result (λ text. text ≡ spec.text_of name.now) }
{
    match name {
        None => Ok(None),
        Some(name) => Ok(Some(Text::from_str(alloc, name.text.as_str())?)),
    }
}

/// Whether a name is that of the instance.
fn is_instance(instance: &Option<Name>, name: &Text) -> bool
    ensures { result ≡ spec.is_instance instance.now name.now }
{
    match instance {
        None => false,
        Some(instance) => instance.text == *name,
    }
}

/// Whether the name of a block is declared already, by the block itself too.
#[tactic(auto, unfolding(crate::specs::Blocks::is_block_taken))]
pub fn is_block_taken(
    env: &Env,
    name: &Name,
    instance: &Option<Name>,
    members: &[BlockMember],
) -> bool
    ensures { result ≡ spec.is_block_taken env.now name.now instance.now members.now }
{
    is_declared(env, &name.text)
        || is_instance(instance, &name.text)
        || (instance.is_none() && has_member(members, &name.text))
}

/// Whether one of the blocks has push constants.
fn has_push(blocks: &[Block]) -> bool
    ensures { result ≡ nat_lt 0 (push_blocks blocks.now) }
{
    for k in 0..blocks.len() {
        if is_push(blocks[k].kind) {
            return true;
        }
    }
    false
}

/// A block whose `need` is not known yet.
fn draft_of(
    alloc: Global,
    kind: BlockKind,
    q: &Qualified,
    name: &Name,
    instance: &Option<Name>,
    members: BlockMembers,
) -> Result<Block, Memory>
    ensures { IfOk result (λ block. block ≡ spec.draft_of kind q.now name.now instance.now members) }
{
    let text = Text::from_str(alloc, name.text.as_str())?;
    let instance = text_of(alloc, instance)?;
    Ok(Block {
        name: text,
        instance,
        kind,
        set: q.set.unwrap_or(0),
        binding: q.binding.unwrap_or(0),
        std140: q.std140.unwrap_or(is_uniform(kind)),
        members,
        need: 0,
        place: name.place,
    })
}

/// How many bytes the buffer of a block must have, which may be declared. What is told of it is none where the block is too large.
#[tactic(auto, unfolding(crate::specs::Blocks::may_be_block))]
pub fn may_be_block(
    env: &Env,
    q: &Qualified,
    name: &Name,
    instance: &Option<Name>,
    block: &Block,
    told: Option<u32>,
) -> Result<u32, Refusal>
    requires told { Needs told env.now.scene.structs block.now }
    ensures gives { GivesBy (λ _. tt) result (spec.may_be_block env.now q.now name.now instance.now (spec.with_need env.now.scene.structs block.now)) }
    ensures need { IfOk result (λ n. n ≡ need_in (layout_of env.now.scene.structs block.now)) }
{
    if is_block_taken(env, name, instance, block.members.as_slice()) {
        return Err(refuse(name.place, Code::E0403));
    }
    if is_reserved(&name.text) {
        return Err(refuse(name.place, Code::E0404));
    }
    if !is_push(block.kind) && q.binding.is_none() {
        return Err(refuse(name.place, Code::E0706));
    }
    if is_push(block.kind) && has_push(env.scene.blocks.as_slice()) {
        return Err(refuse(name.place, Code::E0707));
    }
    if is_uniform(block.kind) && !block.std140 {
        return Err(refuse(name.place, Code::E0708));
    }
    let need = match told {
        Some(need) => need,
        None => return Err(refuse(name.place, Code::E0905)),
    };
    if block.members.len() > 16383 {
        return Err(refuse(name.place, Code::E0908));
    }
    Ok(need)
}

/// How many bytes the buffer of a block must have, which may be declared.
fn needed(
    alloc: Global,
    env: &SoundEnv,
    q: &Qualified,
    name: &Name,
    instance: &Option<Name>,
    draft: &Block,
) -> Result<u32, Refusal>
    requires stand { Stand draft.now.std140 env.now.scene.structs true draft.now.members }
    ensures gives { GivesBy (λ _. tt) result (spec.may_be_block env.now q.now name.now instance.now (spec.with_need env.now.scene.structs draft.now)) }
    ensures need { IfOk result (λ n. n ≡ need_in (layout_of env.now.scene.structs draft.now)) }
{
    let seen = env.get();
    let told = need_of(alloc, &seen.scene.structs, draft)?;
    may_be_block(seen, q, name, instance, draft, told)
}

/// Declares a block whose `need` is not known yet.
#[tactic(auto, unfolding(crate::specs::Stands::with_draft))]
fn declare(
    alloc: Global,
    q: &Qualified,
    name: &Name,
    instance: &Option<Name>,
    draft: Block,
    env: &mut SoundEnv,
) -> Result<(), Refusal>
    requires stand { Stand draft.std140 env.old.scene.structs true draft.members }
    ensures { GivesBy (λ _. env.new) result (with_draft q.now name.now instance.now draft env.old) }
{
    let need = needed(alloc, &*env, q, name, instance, &draft)?;
    env.declare_block(alloc, Block { need, ..draft })?;
    Ok(())
}

/// Declares a block behind its members.
#[tactic(auto, unfolding(crate::specs::Blocks::block_with, crate::specs::Blocks::block_of, crate::specs::Stands::with_draft))]
pub fn block_with(
    alloc: Global,
    kind: BlockKind,
    q: &Qualified,
    name: &Name,
    instance: &Option<Name>,
    members: BlockMembers,
    env: &mut SoundEnv,
) -> Result<(), Refusal>
    requires stand { Stand (unwrap_or q.now.std140 (spec.is_uniform kind)) env.old.scene.structs true members }
    ensures { GivesBy (λ _. env.new) result (spec.block_with kind q.now name.now instance.now members env.old) }
{
    may_be_instance(env.get(), instance)?;
    let draft = draft_of(alloc, kind, q, name, instance, members)?;
    declare(alloc, q, name, instance, draft, env)
}

/// Declares a block: its qualifiers, its members, its instance name, and then the block.
#[tactic(auto, unfolding(crate::specs::Blocks::block))]
pub fn block(
    alloc: Global,
    role: Role,
    quals: &[Qual],
    name: &Name,
    lines: &[Member],
    instance: &Option<Name>,
    env: &mut SoundEnv,
) -> Result<(), Refusal>
    ensures { GivesBy (λ _. env.new) result (spec.block role quals.now name.now lines.now instance.now env.old) }
{
    let seen = env.get();
    let q = qualify(alloc, seen, role, quals)?;
    let kind = kind_of(role);
    let frame = frame_of(kind, instance, q);
    let members = members_of(alloc, seen, &frame, lines)?;
    block_with(alloc, kind, &frame.said, name, instance, members, env)
}
