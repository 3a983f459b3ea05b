//! How a run begins.

ghost use Rattle.std.specs.Prelude.{◌≡◌, IfOk};
ghost use Rattle.gsl_enact.specs.Entry as spec;
ghost use Rattle.gsl_enact_functions.specs.Bodies.{cut};
ghost use Rattle.gsl_enact_state.specs.Seen.{state_seen};
ghost use Rattle.gsl_kinds.specs.Seen.{kind_seen};
ghost use Rattle.gsl_machine.specs.Machine as machine;

use gsl_base::{Buffer, Buffers, Bytes, Input, List, Memory};
use gsl_enact_functions::{enter, function_at};
use gsl_enact_interfaces::variables_begin;
use gsl_enact_state::{Code, Globals, State};
use gsl_kinds::{Kind, kind_at};
use gsl_values::Choices;
use std::alloc::Global;

/// The function that an entry point names.
fn entry_in(kind: Kind<'_>) -> Option<u32>
    ensures { result ≡ machine.entry_in (kind_seen kind.entry) }
{
    match kind {
        Kind::Enters { function, .. } => Some(function),
        _ => None,
    }
}

/// The function that the first entry point of a module names.
#[tactic(auto, using(crate::proofs::Entered::entry_is))]
fn entry_of(globals: &Globals<'_>) -> Option<u32>
    ensures { result ≡ machine.entry_of globals.now.instrs }
{
    entry_from(&globals.code())
}

#[tactic(auto, unfolding(crate::specs::Entry::entry_from))]
fn entry_from(code: &Code<'_>) -> Option<u32>
    ensures { result ≡ spec.entry_from code.now }
{
    let mut rest = code.copied();
    while let Some((_, op, args)) = rest.next() {
        if let Some(id) = entry_in(kind_at(op, args)) {
            return Some(id);
        }
    }
    None
}

/// The instructions of the function that the entry point names.
fn entry_body<'a>(globals: &Globals<'a>) -> Option<Code<'a>>
    ensures { cut result ≡ machine.entry_body globals.now (machine.entry_of globals.now.instrs) }
{
    match entry_of(globals) {
        None => None,
        Some(id) => function_at(globals, id),
    }
}

/// The same buffers once more.
fn copy_buffers(alloc: Global, buffers: &[Buffer]) -> Result<Buffers, Memory>
    ensures { IfOk result (λ all. all ≡ buffers.now) }
{
    let mut all = List::new(alloc);
    let mut rest = buffers;
    while let [buffer, more @ ..] = rest {
        let bytes = Bytes::from_slice(alloc, buffer.bytes.as_slice())?;
        all.push(Buffer {
            set: buffer.set,
            binding: buffer.binding,
            bytes,
        })?;
        rest = more;
    }
    Ok(all)
}

/// The choices of an input. Memory is wanting where there are 2^32 of them or more.
fn choices_of(alloc: Global, input: &Input) -> Result<Choices, Memory>
    ensures { IfOk result (λ c. c ≡ input.now.choices) }
{
    if input.choices.len() > u32::MAX as usize {
        return Err(Memory);
    }
    let list = List::from_slice(alloc, input.choices.as_slice())?;
    Ok(Choices::new(list))
}

/// The module's variables alone, with nothing to come.
fn before_entry<'a>(
    alloc: Global,
    globals: &Globals<'a>,
    input: &Input,
) -> Result<State<'a>, Memory>
    ensures { IfOk result (λ s. state_seen globals.now s ≡ machine.before_entry globals.now input.now) }
{
    let variables = variables_begin(alloc, globals.decorations(), input)?;
    let buffers = copy_buffers(alloc, input.buffers.as_slice())?;
    let choices = choices_of(alloc, input)?;
    Ok(State {
        rest: globals.code().none(),
        body: globals.code().none(),
        own: List::new(alloc),
        rows: List::new(alloc),
        variables,
        buffers,
        choices,
        waiting: List::new(alloc),
    })
}

/// The state before the first instruction, which is the first label of the function that the entry point names.
pub(crate) fn start<'a>(
    alloc: Global,
    globals: &Globals<'a>,
    input: &Input,
) -> Result<State<'a>, Memory>
    ensures { IfOk result (λ s. state_seen globals.now s ≡ machine.start globals.now input.now) }
{
    let mut state = before_entry(alloc, globals, input)?;
    match entry_body(globals) {
        None => Ok(state),
        Some(body) => {
            enter(alloc, globals, &mut state, &body, &[])?;
            Ok(state)
        }
    }
}
