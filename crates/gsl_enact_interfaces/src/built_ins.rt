//! What built-in variables begin as.

ghost use Rattle.std.specs.Prelude.{◌≡◌, ◌+◌, ◌*◌, ◌%◌, ◌^◌, IfOk, slice_index};
ghost use Rattle.std.specs.Option.{option_map};
ghost use Rattle.gsl_enact_fits.specs.Passes.{size_or};
ghost use Rattle.gsl_inputs.specs.Given as spec;
ghost use Rattle.gsl_machine.specs.Interfaces as machine;

use gsl_base::{Input, List, Memory};
use gsl_enact_fits::local_size;
use gsl_ids::Definitions;
use gsl_instr::enumerant::built_in;
use gsl_values::Value;
use std::alloc::Global;

/// The vector of some words.
fn vector_of(alloc: Global, words: &[u32]) -> Result<Value, Memory>
    ensures { IfOk result (λ v. v ≡ spec.vector_of words.now) }
{
    let mut parts = List::new(alloc);
    for k in 0..words.len() {
        parts.push(Value::Word(words[k]))?;
    }
    Ok(Value::Many(parts))
}

/// A part of a size; 0 past the last.
fn size_at(size: &[u32], i: usize) -> u32
    ensures { result ≡ slice_index size.now i }
{
    match size.get(i) {
        Some(part) => *part,
        None => 0,
    }
}

/// A part of the number of an invocation among all.
fn global_part(size: u32, group: u32, local: u32) -> u32
    ensures { result ≡ (group * size + local) % 2 ^ 32 }
{
    group.wrapping_mul(size).wrapping_add(local)
}

fn global_id(alloc: Global, size: &[u32], input: &Input) -> Result<Value, Memory>
    ensures { IfOk result (λ v. v ≡ spec.global_id size.now input.now) }
{
    let x = global_part(size_at(size, 0), input.group[0], input.local[0]);
    let y = global_part(size_at(size, 1), input.group[1], input.local[1]);
    let z = global_part(size_at(size, 2), input.group[2], input.local[2]);
    vector_of(alloc, &[x, y, z])
}

/// The number of an invocation in its work group.
#[tactic(auto, using(crate::proofs::Products::index_is))]
fn index_in(width: u32, height: u32, local: &[u32; 3]) -> u32
    ensures { result ≡ (slice_index local.now 2 * width * height + slice_index local.now 1 * width + slice_index local.now 0) % 2 ^ 32 }
{
    let z = local[2].wrapping_mul(width).wrapping_mul(height);
    let y = local[1].wrapping_mul(width);
    z.wrapping_add(y).wrapping_add(local[0])
}

fn local_index(size: &[u32], input: &Input) -> Value
    ensures { result ≡ spec.local_index size.now input.now }
{
    Value::Word(index_in(size_at(size, 0), size_at(size, 1), &input.local))
}

fn value_by(alloc: Global, size: &[u32], input: &Input, number: u32) -> Result<Value, Memory>
    ensures { IfOk result (λ v. v ≡ machine.built_in_value size.now input.now number) }
{
    if number == built_in::NUM_WORKGROUPS {
        vector_of(alloc, &input.groups)
    } else if number == built_in::WORKGROUP_ID {
        vector_of(alloc, &input.group)
    } else if number == built_in::LOCAL_INVOCATION_ID {
        vector_of(alloc, &input.local)
    } else if number == built_in::GLOBAL_INVOCATION_ID {
        global_id(alloc, size, input)
    } else if number == built_in::LOCAL_INVOCATION_INDEX {
        Ok(local_index(size, input))
    } else if number == built_in::VERTEX_INDEX {
        Ok(Value::Word(input.vertex))
    } else {
        Ok(Value::Word(input.instance))
    }
}

fn value_if(
    alloc: Global,
    size: Option<&[u32]>,
    input: &Input,
    number: u32,
) -> Result<Value, Memory>
    ensures { IfOk result (λ v. v ≡ machine.built_in_value (size_or (option_map (λ parts. parts.now) size.entry)) input.now number) }
{
    match size {
        Some(size) => value_by(alloc, size, input, number),
        None => value_by(alloc, &[1, 1, 1], input, number),
    }
}

/// The value of a built-in variable.
pub(crate) fn built_in_value(
    alloc: Global,
    definitions: &Definitions<'_>,
    input: &Input,
    number: u32,
) -> Result<Value, Memory>
    ensures { IfOk result (λ v. v ≡ machine.built_in_value (machine.local_size definitions.now) input.now number) }
{
    let value = value_if(alloc, local_size(definitions), input, number)?;
    Ok(value)
}
