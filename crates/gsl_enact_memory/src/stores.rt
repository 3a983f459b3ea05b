//! What is stored.

ghost use Rattle.std.specs.Prelude.{◌≡◌, ◌^◌, ◌≤◌, IfOk, OnOk, ℕ, List as Plain, set, slice_get};
ghost use Rattle.gsl_enact_memory.specs.Reaching as reach;
ghost use Rattle.gsl_machine.specs.Memory as spec;
ghost use Rattle.gsl_tree.specs.Values.{components_in};
ghost use Rattle.gsl_views.specs.Buffers as views;
ghost use Rattle.gsl_words.specs.Words.{put_word as word_put};

use crate::bytes::bytes_of;
use gsl_base::{Buffer, Buffers, Bytes, Input, List, Memory};
use gsl_decorations::Decorations;
use gsl_enact_values::{components, put};
use gsl_instr::enumerant::decoration;
use gsl_values::{Value, Values};
use std::alloc::Global;
use std::mem::replace;

/// No bytes stand so far from their start.
const FARTHEST: usize = 1 << 61;

/// Puts a byte at a place, if there is one.
fn put_byte(bytes: &mut Vec<u8>, at: usize, byte: u8)
    ensures { bytes.new.items ≡ set bytes.old.items at byte }
{
    if at < bytes.len() {
        bytes[at] = byte;
    }
}

/// Puts a word in the four bytes from a place on.
#[tactic(auto, unfolding(gsl_words::specs::Words::put_word))]
fn put_word(bytes: &mut Vec<u8>, at: usize, word: u32)
    requires { at ≤ 2 ^ 62 }
    ensures { bytes.new.items ≡ word_put bytes.old.items at word }
{
    let [a, b, c, d] = word.to_le_bytes();
    put_byte(bytes, at, a);
    put_byte(bytes, at + 1, b);
    put_byte(bytes, at + 2, c);
    put_byte(bytes, at + 3, d);
}

/// Puts words one behind the other from a place on.
fn put_words(bytes: &mut Vec<u8>, at: usize, words: &[u32]) -> Result<(), Memory>
    ensures { OnOk result (bytes.new.items ≡ views.put_words at words.now bytes.old.items) }
{
    let mut at = at;
    for k in 0..words.len() {
        if at > FARTHEST {
            return Err(Memory);
        }
        put_word(bytes, at, words[k]);
        at += 4;
    }
    Ok(())
}

/// Whether a buffer is the one at a set and binding.
fn is_at(set: u32, binding: u32, buffer: &Buffer) -> bool
    ensures { result ≡ views.is_at set binding buffer.now }
{
    buffer.set == set && buffer.binding == binding
}

/// How many buffers stand before the first one at a set and binding.
fn before_it(buffers: &Buffers, set: u32, binding: u32) -> usize
    ensures { (bytes : Plain ℕ) → reach.bytes_changed buffers.now result bytes ≡ views.with_bytes buffers.now set binding bytes }
{
    for k in 0..buffers.len() {
        if is_at(set, binding, &buffers[k]) {
            return k;
        }
    }
    buffers.len()
}

/// Gives the buffer at a set and binding other bytes, if there is one.
fn change_bytes(alloc: Global, buffers: &mut Buffers, set: u32, binding: u32, bytes: Bytes)
    ensures { buffers.new ≡ views.with_bytes buffers.old set binding bytes }
{
    let at = before_it(buffers, set, binding);
    let mut items = replace(buffers, List::new(alloc)).into_vec();
    set_bytes(&mut items, at, bytes);
    *buffers = List::from_vec(items);
}

/// Gives the buffer behind so many other bytes, if there is one.
#[tactic(auto, using(crate::proofs::Storing::changed_none))]
fn set_bytes(items: &mut Vec<Buffer>, at: usize, bytes: Bytes)
    ensures { items.new.items ≡ reach.bytes_changed items.old.items at bytes }
{
    if at < items.len() {
        items[at].bytes = bytes;
    }
}

fn change_if(
    alloc: Global,
    buffers: &mut Buffers,
    set: Option<u32>,
    binding: Option<u32>,
    bytes: Bytes,
)
    ensures { buffers.new ≡ spec.with_bytes_if buffers.old set binding bytes }
{
    if let (Some(set), Some(binding)) = (set, binding) {
        change_bytes(alloc, buffers, set, binding, bytes);
    }
}

/// The bytes with the words of a value put in them.
fn with_words(alloc: Global, offset: usize, v: &Value, bytes: &Bytes) -> Result<Bytes, Memory>
    ensures { IfOk result (λ new. new ≡ views.put_words offset (components_in v.now) bytes.now) }
{
    let words = components(alloc, v)?;
    let mut new = Bytes::from_slice(alloc, bytes.as_slice())?.into_vec();
    put_words(&mut new, offset, words.as_slice())?;
    Ok(List::from_vec(new))
}

/// The bytes of a block with a value stored in them, if there are bytes.
fn new_bytes(
    alloc: Global,
    decorations: &Decorations<'_>,
    input: &Input,
    buffers: &Buffers,
    variable: u32,
    offset: usize,
    v: &Value,
) -> Result<Option<Bytes>, Memory>
    ensures { IfOk result (λ new. new ≡ reach.new_bytes offset v.now (reach.bytes_in decorations.now input.now buffers.now variable)) }
{
    match bytes_of(decorations, input, buffers, variable) {
        None => Ok(None),
        Some(bytes) => {
            let new = with_words(alloc, offset, v, bytes)?;
            Ok(Some(new))
        }
    }
}

/// Stores a value in the bytes of a block. Where there are none, nothing is stored.
pub fn block_stored(
    alloc: Global,
    decorations: &Decorations<'_>,
    input: &Input,
    buffers: &mut Buffers,
    variable: u32,
    offset: usize,
    v: &Value,
) -> Result<bool, Memory>
    ensures { IfOk result (λ there. reach.Stores there buffers.new (reach.block_stored decorations.now input.now buffers.old variable offset v.now)) }
{
    let new = new_bytes(alloc, decorations, input, buffers, variable, offset, v)?;
    match new {
        None => Ok(false),
        Some(bytes) => {
            let set = decorations.number_on(decoration::DESCRIPTOR_SET, variable);
            let binding = decorations.number_on(decoration::BINDING, variable);
            change_if(alloc, buffers, set, binding, bytes);
            Ok(true)
        }
    }
}

/// Stores a value in a variable along a path. Where there is no such variable, nothing is stored.
pub fn variable_stored(
    alloc: Global,
    variables: &mut Values,
    number: usize,
    path: &[u32],
    v: Value,
) -> bool
    ensures { reach.Stores result variables.new (reach.variable_stored variables.old number path.now v (slice_get variables.old number)) }
{
    let mut items = replace(variables, List::new(alloc)).into_vec();
    let there = number < items.len();
    if there {
        put(alloc, &mut items[number], path, v);
    }
    *variables = List::from_vec(items);
    there
}
