//! The words of blocks in the buffers of an input.

ghost use Rattle.std.specs.Prelude.{◌≡◌, [], IfOk, OnOk, map, unwrap_or};
ghost use Rattle.std.specs.List.{AllByRecursion};
ghost use Rattle.std.specs.Option.{option_map};
ghost use Rattle.gsl_types.specs.Known.{AreStructs};
ghost use Rattle.gsl_layout.specs.Extents.{ArePlain};
ghost use Rattle.gsl_tree.specs.WellTyped.{IsBlock};
ghost use Rattle.gsl_views.specs.Buffers as buffers_of;
ghost use Rattle.gsl_meaning.specs.Blocks as meaning;
ghost use Rattle.gsl_block_words.specs.Blocked as spec;

use crate::laying::lay_block;
use crate::putting::put;
use crate::reading::read;
use gsl_base::{Buffer, Buffers, Bytes, Input, List, Memory};
use gsl_tree::{Block, BlockKind, Blocks};
use gsl_types::Structs;
use gsl_values::{Value, Values};
use std::alloc::Global;

/// Whether a buffer is the one at a set and binding.
fn is_at(set: u32, binding: u32, buffer: &Buffer) -> bool
    ensures { result ≡ buffers_of.is_at set binding buffer.now }
{
    buffer.set == set && buffer.binding == binding
}

/// The bytes of the buffer at a set and binding, if one is given.
#[tactic(auto, using(gsl_compute::proofs::Loops::opened))]
fn bytes_at<'a>(buffers: &'a Buffers, set: u32, binding: u32) -> Option<&'a Bytes>
    ensures { option_map (λ b. b.now) result ≡ buffers_of.bytes_at buffers.now set binding }
{
    for k in 0..buffers.len() {
        if is_at(set, binding, &buffers[k]) {
            return Some(&buffers[k].bytes);
        }
    }
    None
}

/// The bytes that are given for a block.
fn given_bytes<'a>(input: &'a Input, block: &Block) -> Option<&'a Bytes>
    ensures { option_map (λ b. b.now) result ≡ meaning.given_bytes input.now block.now }
{
    match block.kind {
        BlockKind::Push => input.push.as_ref(),
        BlockKind::Uniform | BlockKind::Buffer => bytes_at(
            &input.buffers,
            block.set,
            block.binding,
        ),
    }
}

/// The same, and no bytes where none are given.
fn given_or_none<'a>(input: &'a Input, block: &Block) -> &'a [u8]
    ensures { result.now ≡ unwrap_or (meaning.given_bytes input.now block.now) [] }
{
    match given_bytes(input, block) {
        None => &[],
        Some(bytes) => bytes.as_slice(),
    }
}

/// The words of a well typed block as its bytes in an input tell them.
fn begun_one(
    alloc: Global,
    structs: &Structs,
    input: &Input,
    block: &Block,
) -> Result<Value, Memory>
    requires known { AreStructs structs.now }
    requires plain { ArePlain structs.now }
    requires block { IsBlock structs.now block.now }
    ensures { IfOk result (λ v. v ≡ meaning.begun structs.now input.now block.now) }
{
    let laid = lay_block(alloc, structs, block)?;
    let v = read(alloc, &laid, given_or_none(input, block))?;
    Ok(v)
}

/// The words of well typed blocks as their bytes in an input tell them.
pub fn begun(
    alloc: Global,
    structs: &Structs,
    input: &Input,
    blocks: &Blocks,
) -> Result<Values, Memory>
    requires known { AreStructs structs.now }
    requires plain { ArePlain structs.now }
    requires blocks { AllByRecursion (IsBlock structs.now) blocks.now }
    ensures { IfOk result (λ vs. vs ≡ map (meaning.begun structs.now input.now) blocks.now) }
{
    let mut all = List::new(alloc);
    for k in 0..blocks.len() {
        let v = begun_one(alloc, structs, input, &blocks[k])?;
        all.push(v)?;
    }
    Ok(all)
}

/// Whether the buffer at a set and binding is a block's.
#[tactic(auto, unfolding(crate::specs::Blocked::stands_at))]
fn stands_at(block: &Block, set: u32, binding: u32) -> bool
    ensures { result ≡ spec.stands_at block.now set binding }
{
    match block.kind {
        BlockKind::Push => false,
        BlockKind::Uniform | BlockKind::Buffer => set == block.set && binding == block.binding,
    }
}

/// Puts the words of a block into the bytes of the buffer at a set and binding, where it is that block's.
#[tactic(auto, unfolding(crate::specs::Blocked::put_where))]
fn put_where(
    alloc: Global,
    structs: &Structs,
    block: &Block,
    v: &Value,
    set: u32,
    binding: u32,
    bytes: &mut [u8],
) -> Result<(), Memory>
    requires known { AreStructs structs.now }
    requires plain { ArePlain structs.now }
    requires block { IsBlock structs.now block.now }
    ensures { OnOk result (bytes.new ≡ spec.put_where structs.now block.now v.now set binding bytes.old) }
{
    if !stands_at(block, set, binding) {
        return Ok(());
    }
    let laid = lay_block(alloc, structs, block)?;
    put(&laid, v, bytes);
    Ok(())
}

/// The same of all blocks.
fn put_into(
    alloc: Global,
    structs: &Structs,
    blocks: &Blocks,
    values: &Values,
    set: u32,
    binding: u32,
    bytes: &mut [u8],
) -> Result<(), Memory>
    requires known { AreStructs structs.now }
    requires plain { ArePlain structs.now }
    requires blocks { AllByRecursion (IsBlock structs.now) blocks.now }
    ensures { OnOk result (bytes.new ≡ spec.put_into structs.now blocks.now values.now set binding bytes.old) }
{
    for k in 0..blocks.len().min(values.len()) {
        put_where(alloc, structs, &blocks[k], &values[k], set, binding, bytes)?;
    }
    Ok(())
}

/// A buffer with the words of all blocks put.
#[tactic(auto, unfolding(crate::specs::Blocked::put_all))]
fn put_all(
    alloc: Global,
    structs: &Structs,
    blocks: &Blocks,
    values: &Values,
    buffer: &Buffer,
) -> Result<Buffer, Memory>
    requires known { AreStructs structs.now }
    requires plain { ArePlain structs.now }
    requires blocks { AllByRecursion (IsBlock structs.now) blocks.now }
    ensures { IfOk result (λ b. b ≡ spec.put_all structs.now blocks.now values.now buffer.now) }
{
    let mut bytes = Vec::from_slice(alloc, buffer.bytes.as_slice())?;
    put_into(
        alloc,
        structs,
        blocks,
        values,
        buffer.set,
        buffer.binding,
        &mut bytes,
    )?;
    Ok(Buffer {
        set: buffer.set,
        binding: buffer.binding,
        bytes: Bytes::from_vec(bytes),
    })
}

/// Buffers with the words of all blocks put; they themselves are kept.
pub fn put_blocks(
    alloc: Global,
    structs: &Structs,
    blocks: &Blocks,
    values: &Values,
    buffers: &Buffers,
) -> Result<Buffers, Memory>
    requires known { AreStructs structs.now }
    requires plain { ArePlain structs.now }
    requires blocks { AllByRecursion (IsBlock structs.now) blocks.now }
    ensures { IfOk result (λ all. all ≡ meaning.put_blocks structs.now blocks.now values.now buffers.now) }
{
    let mut all = List::new(alloc);
    for k in 0..buffers.len() {
        let buffer = put_all(alloc, structs, blocks, values, &buffers[k])?;
        all.push(buffer)?;
    }
    Ok(all)
}
