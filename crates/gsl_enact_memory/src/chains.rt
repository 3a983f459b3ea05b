//! What indexes lead to.

ghost use Rattle.std.specs.Prelude.{◌≡◌, ◌++◌, ◌∷◌, [], ℕ, IfOk, length, Some};
ghost use Rattle.gsl_enact_memory.specs.Reaching as reach;
ghost use Rattle.gsl_machine.specs.Memory as spec;
ghost use Rattle.gsl_machine.specs.State.{Outcome, Pointer as To};
ghost use Rattle.gsl_tree.specs.Operations.{value_at};
ghost use Rattle.gsl_tree.specs.Values.{parts_in};

use crate::bytes::bytes_of;
use crate::parts::{part_as, parts_as};
use crate::pointer::{Pointer, Reached};
use gsl_base::{Buffers, Bytes, Input, List, Memory};
use gsl_decorations::Decorations;
use gsl_enact_values::{follow, parts_of};
use gsl_kinds::shape_of;
use gsl_values::{Value, Values};

/// How many parts the value has to which a path leads.
fn count_at(value: &Value, path: &[u32]) -> usize
    ensures { result ≡ length (parts_in (value_at value.now path.now)) }
{
    match follow(value, path) {
        None => 0,
        Some(part) => parts_of(part).len(),
    }
}

/// What a part that is below the count is.
fn reached(part: Option<Pointer>) -> Reached
    ensures { (place : ℕ) (go : To → Outcome) → reach.reaching result place go ≡ reach.on_part part go }
{
    match part {
        None => Reached::Nowhere,
        Some(pointer) => Reached::To(pointer),
    }
}

/// The part at an index in the bytes of a block.
fn into_block(
    decorations: &Decorations<'_>,
    variable: u32,
    offset: usize,
    pointee: u32,
    index: u32,
    bytes: &Bytes,
) -> Result<Reached, Memory>
    ensures { IfOk result (λ r. (place : ℕ) (go : To → Outcome) → reach.reaching r place go ≡ reach.block_part decorations.now place variable offset pointee index go bytes.now) }
{
    let shape = shape_of(decorations.definitions(), pointee);
    if index as usize >= parts_as(decorations, bytes.len(), offset, pointee, shape) {
        return Ok(Reached::Strays);
    }
    let part = part_as(decorations, variable, offset, pointee, index, shape)?;
    Ok(reached(part))
}

/// The part at an index in a variable.
fn into_variable(
    number: usize,
    path: List<u32>,
    index: u32,
    value: &Value,
) -> Result<Reached, Memory>
    ensures { IfOk result (λ r. (place : ℕ) (go : To → Outcome) → reach.reaching r place go ≡ reach.variable_part place number path index go value.now) }
{
    if index as usize >= count_at(value, path.as_slice()) {
        return Ok(Reached::Strays);
    }
    let mut path = path;
    path.push(index)?;
    Ok(Reached::To(Pointer::InVariable { number, path }))
}

/// What an index leads to: one that is not below the count strays.
pub fn into(
    decorations: &Decorations<'_>,
    input: &Input,
    buffers: &Buffers,
    variables: &Values,
    from: Pointer,
    index: u32,
) -> Result<Reached, Memory>
    ensures { IfOk result (λ r. (place : ℕ) (go : To → Outcome) → reach.reaching r place go ≡ reach.into_in decorations.now input.now buffers.now variables.now place (reach.pointer_seen from) index go) }
{
    match from {
        Pointer::InBlock {
            variable,
            offset,
            pointee,
        } => match bytes_of(decorations, input, buffers, variable) {
            None => Ok(Reached::Nowhere),
            Some(bytes) => into_block(decorations, variable, offset, pointee, index, bytes),
        },
        Pointer::InVariable { number, path } => {
            if number >= variables.len() {
                return Ok(Reached::Nowhere);
            }
            into_variable(number, path, index, &variables[number])
        }
    }
}
