//! Blocks as variables of a module.

ghost use Rattle.std.specs.Prelude.{◌≡◌, [], IfOk};
ghost use Rattle.std.specs.List.{AllByRecursion};
ghost use Rattle.gsl_types.specs.Known.{AreStructs};
ghost use Rattle.gsl_layout.specs.Extents.{ArePlain};
ghost use Rattle.gsl_layout.specs.Kinds.{kind_of};
ghost use Rattle.gsl_tree.specs.Laying.{layout_of};
ghost use Rattle.gsl_tree.specs.WellTyped.{IsBlock};
ghost use Rattle.gsl_lower_values.specs.Building as steps;
ghost use Rattle.gsl_lower_types.specs.Known.{Does};
ghost use Rattle.gsl_lower_types.specs.Blocks as spec;

use crate::declaring::variable_in;
use crate::known::number_of;
use crate::laid::grouped;
use gsl_base::{List, Memory, Text};
use gsl_block_words::lay_block;
use gsl_instr::enumerant::{decoration, storage_class};
use gsl_layout::{Kind, Laid};
use gsl_lower_holders::{Ids, TypeIds};
use gsl_spv::{BuildRefusal, Builder};
use gsl_tree::{Block, BlockKind, BlockMember, BlockMembers, Blocks};
use gsl_types::{Structs, Types};
use gsl_typing::copy;
use gsl_words::Target;
use std::alloc::Global;

/// Arrays and structs that have a type in blocks, by each of the two layout rules, with their ids.
#[derive(Drop)]
pub struct LaidTypes {
    pub std140: TypeIds,
    pub std430: TypeIds,
}

/// The storage class of a block's variable.
pub fn class_of(target: Target, kind: BlockKind) -> u32
    ensures { result ≡ spec.class_of target kind }
{
    match (kind, target) {
        (BlockKind::Uniform, _) => storage_class::UNIFORM,
        (BlockKind::Push, _) => storage_class::PUSH_CONSTANT,
        (BlockKind::Buffer, Target::V10) => storage_class::UNIFORM,
        (BlockKind::Buffer, Target::V13) => storage_class::STORAGE_BUFFER,
    }
}

fn mark_of(target: Target, kind: BlockKind) -> u32
    ensures { result ≡ spec.mark_of target kind }
{
    match (kind, target) {
        (BlockKind::Buffer, Target::V10) => decoration::BUFFER_BLOCK,
        _ => decoration::BLOCK,
    }
}

/// A member has a decoration where a word stands on it.
fn marked(b: &mut Builder, id: u32, number: u32, what: u32, word: bool) -> Result<(), BuildRefusal>
    ensures { steps.Does result b.new (spec.marked id number what word b.old) }
{
    if word {
        return b.decorate(id, Some(number), what, None);
    }
    Ok(())
}

/// The marks of a member of a block's struct, and its name.
#[tactic(auto, unfolding(crate::specs::Blocks::member_marked))]
fn member_marked(
    b: &mut Builder,
    id: u32,
    number: u32,
    member: &BlockMember,
) -> Result<(), BuildRefusal>
    ensures { steps.Does result b.new (spec.member_marked id number member.now b.old) }
{
    marked(b, id, number, decoration::NON_WRITABLE, member.readonly)?;
    marked(b, id, number, decoration::NON_READABLE, member.writeonly)?;
    marked(b, id, number, decoration::COHERENT, member.coherent)?;
    marked(b, id, number, decoration::VOLATILE, member.volatile)?;
    b.name(id, Some(number), &member.name)
}

fn members_marked(b: &mut Builder, id: u32, members: &BlockMembers) -> Result<(), BuildRefusal>
    ensures { steps.Does result b.new (spec.members_marked id 0 members.now b.old) }
{
    for k in 0..members.len() {
        let number = number_of(k)?;
        member_marked(b, id, number, &members[k])?;
    }
    Ok(())
}

fn member_types(alloc: Global, members: &BlockMembers) -> Result<Types, Memory>
    ensures { IfOk result (λ all. all ≡ spec.member_types_of members.now) }
{
    let mut all = List::new(alloc);
    for k in 0..members.len() {
        all.push(copy(alloc, &members[k].ty)?)?;
    }
    Ok(all)
}

/// The struct type of a block, whose members stand where its layout has them.
fn block_laid(
    alloc: Global,
    b: &mut Builder,
    known: &mut TypeIds,
    structs: &Structs,
    laid: &Laid,
    block: &Block,
) -> Result<u32, BuildRefusal>
    ensures { Does result b.new known.new (spec.block_laid structs.now laid.now block.now known.old b.old) }
{
    let Kind::Group(count) = laid.kind() else {
        return Err(BuildRefusal::Memory);
    };
    let types = member_types(alloc, &block.members)?;
    grouped(alloc, b, known, structs, laid, count, &types)
}

fn block_marked(b: &mut Builder, target: Target, block: &Block, id: u32) -> Result<(), BuildRefusal>
    ensures { steps.Does result b.new (spec.block_marked target block.now id b.old) }
{
    b.decorate(id, None, mark_of(target, block.kind), None)?;
    b.name(id, None, &block.name)?;
    members_marked(b, id, &block.members)
}

/// The set and the binding of a block's variable.
fn bound_by(
    b: &mut Builder,
    kind: BlockKind,
    set: u32,
    binding: u32,
    id: u32,
) -> Result<(), BuildRefusal>
    ensures { steps.Does result b.new (spec.bound_by kind set binding id b.old) }
{
    match kind {
        BlockKind::Push => Ok(()),
        BlockKind::Uniform | BlockKind::Buffer => {
            b.decorate(id, None, decoration::DESCRIPTOR_SET, Some(set))?;
            b.decorate(id, None, decoration::BINDING, Some(binding))
        }
    }
}

fn block_variable(
    b: &mut Builder,
    target: Target,
    block: &Block,
    struct_id: u32,
) -> Result<u32, BuildRefusal>
    ensures { steps.Does result b.new (spec.block_variable target block.now struct_id b.old) }
{
    let class = class_of(target, block.kind);
    let id = variable_in(b, class, struct_id, None)?;
    bound_by(b, block.kind, block.set, block.binding, id)?;
    Ok(id)
}

fn block_by(
    b: &mut Builder,
    target: Target,
    block: &Block,
    struct_id: u32,
) -> Result<u32, BuildRefusal>
    ensures { steps.Does result b.new (spec.block_by target block.now struct_id b.old) }
{
    block_marked(b, target, block, struct_id)?;
    block_variable(b, target, block, struct_id)
}

/// The variable of a block.
#[tactic(auto, unfolding(crate::specs::Blocks::block_put))]
fn block_put(
    alloc: Global,
    b: &mut Builder,
    known: &mut TypeIds,
    target: Target,
    structs: &Structs,
    block: &Block,
) -> Result<u32, BuildRefusal>
    requires known { AreStructs structs.now }
    requires plain { ArePlain structs.now }
    requires block { IsBlock structs.now block.now }
    ensures { Does result b.new known.new (spec.block_put target structs.now block.now known.old b.old) }
{
    let laid = lay_block(alloc, structs, block)?;
    let struct_id = block_laid(alloc, b, known, structs, &laid, block)?;
    block_by(b, target, block, struct_id)
}

/// The variable of a block, by what is known of the types that its layout rule lays out.
#[tactic(auto, unfolding(crate::specs::Blocks::block_in))]
fn block_in(
    alloc: Global,
    b: &mut Builder,
    laid: &mut LaidTypes,
    target: Target,
    structs: &Structs,
    block: &Block,
) -> Result<u32, BuildRefusal>
    requires known { AreStructs structs.now }
    requires plain { ArePlain structs.now }
    requires block { IsBlock structs.now block.now }
    ensures { Does result b.new laid.new (spec.block_in target structs.now block.now laid.old b.old) }
{
    if block.std140 {
        block_put(alloc, b, &mut laid.std140, target, structs, block)
    } else {
        block_put(alloc, b, &mut laid.std430, target, structs, block)
    }
}

/// The variables of well typed blocks for a target, in their order: each with its set and binding, but for push constants, and with a struct type
/// of its own that has the block's name and mark, and the marks, names and offsets of its members (GLSL 4.50, 4.3.9 and 4.4.5). A type that lies in
/// blocks has one type of the module for each layout rule.
pub fn blocks_put(
    alloc: Global,
    b: &mut Builder,
    laid: &mut LaidTypes,
    target: Target,
    structs: &Structs,
    blocks: &Blocks,
) -> Result<Ids, BuildRefusal>
    requires known { AreStructs structs.now }
    requires plain { ArePlain structs.now }
    requires blocks { AllByRecursion (IsBlock structs.now) blocks.now }
    ensures { Does result b.new laid.new (spec.blocks_put target structs.now blocks.now laid.old b.old) }
{
    let mut ids = List::new(alloc);
    for k in 0..blocks.len() {
        ids.push(block_in(alloc, b, laid, target, structs, &blocks[k])?)?;
    }
    Ok(ids)
}

/// The storage classes of blocks' variables, in their order.
pub fn classes_of(alloc: Global, target: Target, blocks: &Blocks) -> Result<Ids, Memory>
    ensures { IfOk result (λ all. all ≡ spec.classes_of target blocks.now) }
{
    let mut all = List::new(alloc);
    for k in 0..blocks.len() {
        all.push(class_of(target, blocks[k].kind))?;
    }
    Ok(all)
}
