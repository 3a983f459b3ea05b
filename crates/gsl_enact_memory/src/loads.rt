//! What is loaded, and counts.

ghost use Rattle.std.specs.Prelude.{◌≡◌, ◌^◌, ◌≤◌, IfOk, Some, slice_index};
ghost use Rattle.gsl_enact_memory.specs.Reaching as reach;
ghost use Rattle.gsl_machine.specs.Memory as spec;
ghost use Rattle.gsl_words.specs.Words.{word_at as word_of_bytes};

use crate::bytes::bytes_of;
use crate::parts::{part_as, parts_as};
use crate::pointer::Pointer;
use gsl_base::{Buffers, Bytes, Input, List, Memory};
use gsl_decorations::Decorations;
use gsl_enact_fits::lanes_size;
use gsl_enact_values::{Words, of_components, part_at};
use gsl_kinds::shape_of;
use gsl_values::{Value, Values};
use std::alloc::Global;

/// No bytes stand so far from their start.
const FARTHEST: usize = 1 << 61;

/// The byte at a place, 0 past the last.
fn byte_at(bytes: &[u8], at: usize) -> u8
    ensures { result ≡ slice_index bytes.now at }
{
    match bytes.get(at) {
        Some(byte) => *byte,
        None => 0,
    }
}

/// The word of the four bytes from a place on.
#[tactic(auto, unfolding(gsl_words::specs::Words::word_at))]
fn word_at(bytes: &[u8], at: usize) -> u32
    requires { at ≤ 2 ^ 62 }
    ensures { result ≡ word_of_bytes bytes.now at }
{
    u32::from_le_bytes([
        byte_at(bytes, at),
        byte_at(bytes, at + 1),
        byte_at(bytes, at + 2),
        byte_at(bytes, at + 3),
    ])
}

/// The words of the components of a type, one behind the other.
fn words_at(
    alloc: Global,
    decorations: &Decorations<'_>,
    offset: usize,
    pointee: u32,
    bytes: &Bytes,
) -> Result<Words, Memory>
    ensures { IfOk result (λ words. words ≡ spec.words_at decorations.now offset pointee bytes.now) }
{
    if offset > FARTHEST {
        return Err(Memory);
    }
    let mut words = List::new(alloc);
    let size = lanes_size(decorations.definitions(), pointee);
    for k in 0..size {
        words.push(word_at(bytes.as_slice(), offset + 4 * k as usize))?;
    }
    Ok(words)
}

fn loaded_from(
    alloc: Global,
    decorations: &Decorations<'_>,
    offset: usize,
    pointee: u32,
    bytes: &Bytes,
) -> Result<Value, Memory>
    ensures { IfOk result (λ v. reach.loaded_from decorations.now offset pointee (Some bytes.now) ≡ Some v) }
{
    let words = words_at(alloc, decorations, offset, pointee, bytes)?;
    of_components(alloc, &words)
}

/// What is loaded, if there is something.
pub fn loaded(
    alloc: Global,
    decorations: &Decorations<'_>,
    input: &Input,
    buffers: &Buffers,
    variables: &Values,
    from: &Pointer,
) -> Result<Option<Value>, Memory>
    ensures { IfOk result (λ v. v ≡ reach.loaded_in decorations.now input.now buffers.now variables.now (reach.pointer_seen from.now)) }
{
    match from {
        Pointer::InBlock {
            variable,
            offset,
            pointee,
        } => match bytes_of(decorations, input, buffers, *variable) {
            None => Ok(None),
            Some(bytes) => {
                let v = loaded_from(alloc, decorations, *offset, *pointee, bytes)?;
                Ok(Some(v))
            }
        },
        Pointer::InVariable { number, path } => {
            if *number >= variables.len() {
                return Ok(None);
            }
            let v = part_at(alloc, &variables[*number], path.as_slice())?;
            Ok(Some(v))
        }
    }
}

/// The count of a part that is there.
fn count_of(
    decorations: &Decorations<'_>,
    bytes: &Bytes,
    part: Option<Pointer>,
) -> Result<Option<u32>, Memory>
    ensures { IfOk result (λ count. count ≡ reach.count_of decorations.now bytes.now (reach.pointer_if_seen part)) }
{
    match part {
        Some(
            Pointer::InBlock {
                offset,
                pointee,
                ..
            },
        ) => {
            let shape = shape_of(decorations.definitions(), pointee);
            let count = parts_as(decorations, bytes.len(), offset, pointee, shape);
            if count > u32::MAX as usize {
                return Err(Memory);
            }
            Ok(Some(count as u32))
        }
        _ => Ok(None),
    }
}

/// The count of elements of the array without length that is a member of a block, if there is one.
pub fn counted(
    decorations: &Decorations<'_>,
    input: &Input,
    buffers: &Buffers,
    from: &Pointer,
    member: u32,
) -> Result<Option<u32>, Memory>
    ensures { IfOk result (λ count. count ≡ reach.counted_in decorations.now input.now buffers.now (reach.pointer_seen from.now) member) }
{
    match from {
        Pointer::InBlock {
            variable,
            offset,
            pointee,
        } => match bytes_of(decorations, input, buffers, *variable) {
            None => Ok(None),
            Some(bytes) => {
                let shape = shape_of(decorations.definitions(), *pointee);
                let part = part_as(decorations, *variable, *offset, *pointee, member, shape)?;
                count_of(decorations, bytes, part)
            }
        },
        Pointer::InVariable { .. } => Ok(None),
    }
}
