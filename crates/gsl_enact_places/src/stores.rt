//! Stores, and variables where they stand in their function.

ghost use Rattle.std.specs.Prelude.{◌≡◌, IfOk, ℕ};
ghost use Rattle.gsl_enact_memory.specs.Reaching as reach;
ghost use Rattle.gsl_enact_places.specs.Storing as here;
ghost use Rattle.gsl_enact_state.specs.Seen.{state_seen};
ghost use Rattle.gsl_enact_steps.specs.Outcomes.{outcome_seen};
ghost use Rattle.gsl_kinds.specs.Seen.{variable_seen};
ghost use Rattle.gsl_machine.specs.Memory as spec;
ghost use Rattle.gsl_machine.specs.State.{Going, InBlock, InVariable, on, on_pointer, on_whole};
ghost use Rattle.gsl_machine.specs.Steps.{declaring};

use gsl_base::{Input, Memory};
use gsl_enact_functions::begins_as;
use gsl_enact_memory::{Pointer, block_stored, variable_stored};
use gsl_enact_state::{Globals, State};
use gsl_enact_steps::Step;
use gsl_kinds::Variable;
use gsl_values::Value;
use std::alloc::Global;

/// Goes on where something was there to be stored in.
fn going_if(there: bool) -> Step
    ensures { result ≡ here.going_if there }
{
    if there { Step::Going } else { Step::Stuck }
}

/// Stores a value in the bytes of a block.
#[tactic(auto, using(gsl_enact_memory::proofs::Joined::storing_in_block))]
fn store_in_block(
    alloc: Global,
    globals: &Globals<'_>,
    input: &Input,
    state: &mut State<'_>,
    variable: u32,
    offset: usize,
    v: Value,
) -> Result<Step, Memory>
    ensures { (pointee : ℕ) → IfOk result (λ s. outcome_seen globals.now state.new s ≡ spec.storing globals.now input.now (state_seen globals.now state.old) (InBlock variable offset pointee) v Going) }
{
    let there = block_stored(
        alloc,
        globals.decorations(),
        input,
        &mut state.buffers,
        variable,
        offset,
        &v,
    )?;
    Ok(going_if(there))
}

/// Stores a value in a variable along a path.
#[tactic(auto, using(gsl_enact_memory::proofs::Joined::storing_in_variable))]
fn store_in_variable(
    alloc: Global,
    globals: &Globals<'_>,
    input: &Input,
    state: &mut State<'_>,
    number: usize,
    path: &[u32],
    v: Value,
) -> Step
    ensures { outcome_seen globals.now state.new result ≡ spec.storing globals.now input.now (state_seen globals.now state.old) (InVariable number path.now) v Going }
{
    going_if(variable_stored(alloc, &mut state.variables, number, path, v))
}

/// Stores a value where a pointer leads.
fn store_at(
    alloc: Global,
    globals: &Globals<'_>,
    input: &Input,
    state: &mut State<'_>,
    to: Pointer,
    v: Value,
) -> Result<Step, Memory>
    ensures { IfOk result (λ s. outcome_seen globals.now state.new s ≡ spec.storing globals.now input.now (state_seen globals.now state.old) (reach.pointer_seen to) v Going) }
{
    match to {
        Pointer::InBlock {
            variable,
            offset,
            ..
        } => store_in_block(alloc, globals, input, state, variable, offset, v),
        Pointer::InVariable { number, path } => {
            let step = store_in_variable(alloc, globals, input, state, number, path.as_slice(), v);
            Ok(step)
        }
    }
}

/// Stores the value of an id where a pointer leads.
pub fn store(
    alloc: Global,
    globals: &Globals<'_>,
    input: &Input,
    state: &mut State<'_>,
    pointer: u32,
    value: u32,
) -> Result<Step, Memory>
    ensures { IfOk result (λ s. outcome_seen globals.now state.new s ≡ on_pointer ((state_seen globals.now state.old).ids pointer) (λ to. on_whole ((state_seen globals.now state.old).ids value) (λ v. spec.storing globals.now input.now (state_seen globals.now state.old) to v Going))) }
{
    match globals.pointer(alloc, state, pointer)? {
        None => Ok(Step::Stuck),
        Some(to) => store_value(alloc, globals, input, state, to, value),
    }
}

fn store_value(
    alloc: Global,
    globals: &Globals<'_>,
    input: &Input,
    state: &mut State<'_>,
    to: Pointer,
    value: u32,
) -> Result<Step, Memory>
    ensures { IfOk result (λ s. outcome_seen globals.now state.new s ≡ on_whole ((state_seen globals.now state.old).ids value) (λ v. spec.storing globals.now input.now (state_seen globals.now state.old) (reach.pointer_seen to) v Going)) }
{
    match globals.value(alloc, state, value)? {
        None => Ok(Step::Stuck),
        Some(v) => store_at(alloc, globals, input, state, to, v),
    }
}

/// A variable of a function has its initialiser again where it stands.
pub fn declare(
    alloc: Global,
    globals: &Globals<'_>,
    input: &Input,
    state: &mut State<'_>,
    v: &Variable<'_>,
) -> Result<Step, Memory>
    ensures { IfOk result (λ s. outcome_seen globals.now state.new s ≡ declaring globals.now input.now (state_seen globals.now state.old) (variable_seen v.now)) }
{
    match globals.pointer(alloc, state, v.id)? {
        None => Ok(Step::Stuck),
        Some(to) => {
            let value = begins_as(alloc, globals.decorations().definitions(), v)?;
            store_at(alloc, globals, input, state, to, value)
        }
    }
}
