//! Which inputs fit a program.

ghost use Rattle.std.specs.Prelude.{◌≡◌, ◌<◌, ◌^◌, length, map};
ghost use Rattle.std.specs.Option.{option_map};
ghost use Rattle.gsl_views.specs.Buffers as buffers_of;
ghost use Rattle.gsl_meaning.specs.Blocks as blocks;
ghost use Rattle.gsl_meaning.specs.Fits as spec;
ghost use Rattle.gsl_inputs.specs.Demands as demands;
ghost use Rattle.gsl_inputs.specs.Given as given;

use gsl_base::{Buffer, Buffers, Bytes, Comps, Input, InputRefusal, Ins, Located, Stage};
use gsl_tree::{Block, BlockKind, Blocks, Interface, Interfaces, Program};
use gsl_types::components;

/// Whether a buffer is the one at a set and binding.
fn is_at(set: u32, binding: u32, buffer: &Buffer) -> bool
    ensures { result ≡ buffers_of.is_at set binding buffer.now }
{
    buffer.set == set && buffer.binding == binding
}

/// The bytes of the buffer at a set and binding, if one is given.
#[tactic(auto, using(crate::proofs::Lists::opened))]
fn bytes_at<'a>(buffers: &'a Buffers, set: u32, binding: u32) -> Option<&'a Bytes>
    ensures { option_map (λ b. b.now) result ≡ buffers_of.bytes_at buffers.now set binding }
{
    for k in 0..buffers.len() {
        if is_at(set, binding, &buffers[k]) {
            return Some(&buffers[k].bytes);
        }
    }
    None
}

/// The bytes that are given for a block.
fn given_bytes<'a>(input: &'a Input, block: &Block) -> Option<&'a Bytes>
    ensures { option_map (λ b. b.now) result ≡ blocks.given_bytes input.now block.now }
{
    match block.kind {
        BlockKind::Push => input.push.as_ref(),
        BlockKind::Uniform | BlockKind::Buffer => bytes_at(
            &input.buffers,
            block.set,
            block.binding,
        ),
    }
}

fn absent(block: &Block) -> InputRefusal
    ensures { result ≡ spec.absent block.now }
{
    match block.kind {
        BlockKind::Push => InputRefusal::NoPush,
        BlockKind::Uniform | BlockKind::Buffer => InputRefusal::NoBuffer(block.set, block.binding),
    }
}

fn short(block: &Block) -> InputRefusal
    ensures { result ≡ spec.short block.now }
{
    match block.kind {
        BlockKind::Push => InputRefusal::PushShort,
        BlockKind::Uniform | BlockKind::Buffer => InputRefusal::TooShort(block.set, block.binding),
    }
}

/// The buffer of a block is there, and long enough.
fn is_given(block: &Block, bytes: Option<&Bytes>) -> Result<(), InputRefusal>
    ensures { result ≡ spec.is_given block.now (option_map (λ b. b.now) bytes.entry) }
{
    match bytes {
        None => Err(absent(block)),
        Some(bytes) => {
            if bytes.len() < block.need as usize {
                return Err(short(block));
            }
            Ok(())
        }
    }
}

/// The blocks in their order.
#[tactic(auto, using(crate::proofs::Lists::opened))]
fn blocks_met(blocks: &Blocks, input: &Input) -> Result<(), InputRefusal>
    ensures { result ≡ spec.blocks_met blocks.now input.now }
{
    for k in 0..blocks.len() {
        let block = &blocks[k];
        is_given(block, given_bytes(input, block))?;
    }
    Ok(())
}

/// Whether a value is the one at a location.
fn is_there(location: u32, value: &Located) -> bool
    ensures { result ≡ given.is_there location value.now }
{
    value.location == location
}

/// The words that are given at a location.
#[tactic(auto, using(crate::proofs::Lists::opened))]
fn words_at<'a>(ins: &'a Ins, location: u32) -> Option<&'a Comps>
    ensures { option_map (λ w. w.now) result ≡ given.words_at ins.now location }
{
    for k in 0..ins.len() {
        if is_there(location, &ins[k]) {
            return Some(&ins[k].words);
        }
    }
    None
}

/// Whether as many words are given as an input has components.
fn has_words(count: u32, words: Option<&Comps>) -> bool
    ensures { result ≡ demands.has_words count (option_map (λ w. w.now) words.entry) }
{
    match words {
        None => false,
        Some(words) => words.len() >= count as usize,
    }
}

/// Whether an input at a location has no value, or one of too few words.
fn is_wanting(input: &Input, location: u32, i: &Interface) -> bool
    ensures { result ≡ spec.is_wanting input.now location i.now }
{
    if i.output || i.location != location {
        return false;
    }
    !has_words(components(&i.ty), words_at(&input.ins, location))
}

/// The inputs at a location.
#[tactic(auto, using(crate::proofs::Lists::opened))]
fn value_met(input: &Input, location: u32, interfaces: &Interfaces) -> Result<(), InputRefusal>
    ensures { result ≡ spec.value_met input.now location interfaces.now }
{
    for k in 0..interfaces.len() {
        if is_wanting(input, location, &interfaces[k]) {
            return Err(InputRefusal::NoValue(location));
        }
    }
    Ok(())
}

/// The inputs in ascending order of location.
fn values_met(interfaces: &Interfaces, input: &Input) -> Result<(), InputRefusal>
    ensures { result ≡ spec.values_met interfaces.now input.now }
{
    for location in 0..1024 {
        if let Err(refusal) = value_met(input, location, interfaces) {
            return Err(refusal);
        }
    }
    Ok(())
}

/// Whether each part is below its bound.
fn all_below(parts: &[u32], bounds: &[u32]) -> bool
    ensures { result ≡ demands.all_below parts.now bounds.now }
{
    match parts {
        [] => true,
        [part, parts @ ..] => match bounds {
            [] => false,
            [bound, bounds @ ..] => *part < *bound && all_below(parts, bounds),
        },
    }
}

/// The invocation is one of its work group, and the work group one of those that are run.
fn ids_met(program: &Program, input: &Input) -> Result<(), InputRefusal>
    ensures { result ≡ spec.ids_met program.now input.now }
{
    if program.stage != Stage::Compute {
        return Ok(());
    }
    if all_below(&input.local, &program.local_size) && all_below(&input.group, &input.groups) {
        Ok(())
    } else {
        Err(InputRefusal::BadIds)
    }
}

/// Whether an input fits a program, or the first refusal: of its blocks by set and binding, the push constant block the last, each
/// absent before it is too short for what its block needs; then of its inputs by location; then, for compute, of the numbers of the
/// invocation and of its work group. It takes no memory.
pub fn fits(program: &Program, input: &Input) -> Result<(), InputRefusal>
    ensures { result ≡ spec.fits program.now input.now }
{
    blocks_met(&program.blocks, input)?;
    values_met(&program.interfaces, input)?;
    ids_met(program, input)
}
