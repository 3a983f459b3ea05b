//! The blocks of units, each once.

ghost use Rattle.std.specs.Prelude.{◌≡◌, [], bytes_eq, IfOk, OnOk};
ghost use Rattle.indexmap.specs.IndexSet.{insert_key, insert_all};
ghost use Rattle.gsl_link_whole.specs.Numbers.{same_block, joined_blocks, declared_blocks as all_of};
ghost use Rattle.gsl_link_numbers.specs.Joining as spec;

use crate::order::in_order;
use crate::sets::{name_number, put_name};
use gsl_base::{List, Memory, Text};
use gsl_link_whole::{Side, copied};
use gsl_tree::{Block, BlockMember, BlockMembers, Blocks};
use indexmap::IndexSet;
use std::alloc::Global;

fn copied_member(alloc: Global, member: &BlockMember) -> Result<BlockMember, Memory>
    ensures { IfOk result (λ x. x ≡ member.now) }
{
    let name = Text::from_str(alloc, member.name.as_str())?;
    let ty = copied(alloc, &member.ty)?;
    Ok(BlockMember {
        name,
        ty,
        readonly: member.readonly,
        writeonly: member.writeonly,
        coherent: member.coherent,
        volatile: member.volatile,
        restrict: member.restrict,
        offset: member.offset,
        align: member.align,
        place: member.place,
    })
}

fn copied_members(alloc: Global, members: &[BlockMember]) -> Result<BlockMembers, Memory>
    ensures { IfOk result (λ xs. xs ≡ members.now) }
{
    let mut all = List::new(alloc);
    for k in 0..members.len() {
        let member = copied_member(alloc, &members[k])?;
        all.push(member)?;
    }
    Ok(all)
}

fn copied_instance(alloc: Global, name: &Option<Text>) -> Result<Option<Text>, Memory>
    ensures { IfOk result (λ x. x ≡ name.now) }
{
    match name {
        None => Ok(None),
        Some(name) => {
            let name = Text::from_str(alloc, name.as_str())?;
            Ok(Some(name))
        }
    }
}

fn copied_block(alloc: Global, block: &Block) -> Result<Block, Memory>
    ensures { IfOk result (λ x. x ≡ block.now) }
{
    let name = Text::from_str(alloc, block.name.as_str())?;
    let instance = copied_instance(alloc, &block.instance)?;
    let members = copied_members(alloc, block.members.as_slice())?;
    Ok(Block {
        name,
        instance,
        kind: block.kind,
        set: block.set,
        binding: block.binding,
        std140: block.std140,
        members,
        need: block.need,
        place: block.place,
    })
}

/// Puts a block behind others, where none has its name.
fn add_block(
    alloc: Global,
    names: &mut IndexSet<Text>,
    all: &mut Blocks,
    block: &Block,
) -> Result<(), Memory>
    requires named { names.old.keys ≡ spec.block_names all.old }
    ensures named { OnOk result (names.new.keys ≡ spec.block_names all.new) }
    ensures all { OnOk result (all.new ≡ insert_key same_block all.old block.now) }
{
    let name = Text::from_str(alloc, block.name.as_str())?;
    if put_name(names, name)? {
        let block = copied_block(alloc, block)?;
        all.push(block)?;
    }
    Ok(())
}

fn add_blocks(
    alloc: Global,
    names: &mut IndexSet<Text>,
    all: &mut Blocks,
    more: &[Block],
) -> Result<(), Memory>
    requires named { names.old.keys ≡ spec.block_names all.old }
    ensures named { OnOk result (names.new.keys ≡ spec.block_names all.new) }
    ensures all { OnOk result (all.new ≡ insert_all same_block all.old more.now) }
{
    for k in 0..more.len() {
        add_block(alloc, names, all, &more[k])?;
    }
    Ok(())
}

fn blocks_behind(
    alloc: Global,
    names: &mut IndexSet<Text>,
    all: &mut Blocks,
    sides: &[Side],
) -> Result<(), Memory>
    requires named { names.old.keys ≡ spec.block_names all.old }
    ensures named { OnOk result (names.new.keys ≡ spec.block_names all.new) }
    ensures all { OnOk result (all.new ≡ spec.blocks_behind all.old sides.now) }
{
    for k in 0..sides.len() {
        let side = &sides[k];
        add_blocks(alloc, names, all, side.unit.blocks.as_slice())?;
    }
    Ok(())
}

/// The blocks of units, each once, and their names in the same order, put into an empty set.
#[tactic(auto, using(crate::proofs::Joined::blocks_are))]
pub fn declared_blocks(
    alloc: Global,
    names: &mut IndexSet<Text>,
    sides: &[Side],
) -> Result<Blocks, Memory>
    requires none { names.old.keys ≡ [] }
    ensures named { OnOk result (names.new.keys ≡ spec.block_names (all_of sides.now)) }
    ensures all { IfOk result (λ all. all ≡ all_of sides.now) }
{
    let mut all = List::new(alloc);
    blocks_behind(alloc, names, &mut all, sides)?;
    Ok(all)
}

/// The numbers of blocks among those of all units, whose names these are.
pub(crate) fn block_numbers(
    alloc: Global,
    names: &IndexSet<Text>,
    blocks: &[Block],
) -> Result<List<u32>, Memory>
    ensures { IfOk result (λ ns. ns ≡ spec.block_places names.now.keys blocks.now) }
{
    let mut all = List::new(alloc);
    for k in 0..blocks.len() {
        let number = name_number(names, &blocks[k].name)?;
        all.push(number)?;
    }
    Ok(all)
}

/// Puts the names of blocks into a set.
fn put_names(alloc: Global, names: &mut IndexSet<Text>, blocks: &[Block]) -> Result<(), Memory>
    ensures { OnOk result (names.new.keys ≡ insert_all bytes_eq names.old.keys (spec.block_names blocks.now)) }
{
    for k in 0..blocks.len() {
        let name = Text::from_str(alloc, blocks[k].name.as_str())?;
        put_name(names, name)?;
    }
    Ok(())
}

/// The blocks of units, each once, in ascending order of set and binding, and their names in the same order, put into an empty set.
pub(crate) fn ordered_blocks(
    alloc: Global,
    names: &mut IndexSet<Text>,
    sides: &[Side],
) -> Result<Blocks, Memory>
    requires none { names.old.keys ≡ [] }
    ensures named { OnOk result (names.new.keys ≡ spec.block_names (joined_blocks sides.now)) }
    ensures all { IfOk result (λ all. all ≡ joined_blocks sides.now) }
{
    let mut declared = IndexSet::new(alloc);
    let all = declared_blocks(alloc, &mut declared, sides)?;
    let all = in_order(alloc, all)?;
    put_names(alloc, names, all.as_slice())?;
    Ok(all)
}
