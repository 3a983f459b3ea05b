//! Loads, and counts of elements.

ghost use Rattle.std.specs.Prelude.{◌≡◌, IfOk};
ghost use Rattle.gsl_enact_memory.specs.Reaching.{pointer_seen};
ghost use Rattle.gsl_enact_state.specs.Seen.{state_seen};
ghost use Rattle.gsl_enact_steps.specs.Outcomes.{outcome_seen};
ghost use Rattle.gsl_machine.specs.Memory as spec;
ghost use Rattle.gsl_machine.specs.State.{giving_value, on_pointer};
ghost use Rattle.gsl_values.specs.declared.value.Value.TheVariants.{Word};

use gsl_base::{Input, Memory};
use gsl_enact_memory::{Pointer, counted, loaded};
use gsl_enact_state::{Globals, State};
use gsl_enact_steps::{Step, give_value};
use gsl_values::Value;
use std::alloc::Global;

/// Gives an id what is loaded from where a pointer leads.
pub fn load(
    alloc: Global,
    globals: &Globals<'_>,
    input: &Input,
    state: &mut State<'_>,
    id: u32,
    pointer: u32,
) -> Result<Step, Memory>
    ensures { IfOk result (λ s. outcome_seen globals.now state.new s ≡ on_pointer ((state_seen globals.now state.old).ids pointer) (λ from. spec.loading globals.now input.now (state_seen globals.now state.old) from (giving_value (state_seen globals.now state.old) id))) }
{
    match globals.pointer(alloc, state, pointer)? {
        None => Ok(Step::Stuck),
        Some(from) => load_from(alloc, globals, input, state, id, &from),
    }
}

#[tactic(auto, using(gsl_enact_memory::proofs::Joined::loading_is))]
fn load_from(
    alloc: Global,
    globals: &Globals<'_>,
    input: &Input,
    state: &mut State<'_>,
    id: u32,
    from: &Pointer,
) -> Result<Step, Memory>
    ensures { IfOk result (λ s. outcome_seen globals.now state.new s ≡ spec.loading globals.now input.now (state_seen globals.now state.old) (pointer_seen from.now) (giving_value (state_seen globals.now state.old) id)) }
{
    match loaded(
        alloc,
        globals.decorations(),
        input,
        &state.buffers,
        &state.variables,
        from,
    )? {
        None => Ok(Step::Stuck),
        Some(value) => give_value(state, id, value),
    }
}

/// Gives an id the count of elements of the array without length that is a member of a block.
pub fn count(
    alloc: Global,
    globals: &Globals<'_>,
    input: &Input,
    state: &mut State<'_>,
    id: u32,
    pointer: u32,
    member: u32,
) -> Result<Step, Memory>
    ensures { IfOk result (λ s. outcome_seen globals.now state.new s ≡ on_pointer ((state_seen globals.now state.old).ids pointer) (λ from. spec.counting globals.now input.now (state_seen globals.now state.old) from member (λ count. giving_value (state_seen globals.now state.old) id (Word count)))) }
{
    match globals.pointer(alloc, state, pointer)? {
        None => Ok(Step::Stuck),
        Some(from) => count_from(globals, input, state, id, &from, member),
    }
}

#[tactic(auto, using(gsl_enact_memory::proofs::Joined::counting_is))]
fn count_from(
    globals: &Globals<'_>,
    input: &Input,
    state: &mut State<'_>,
    id: u32,
    from: &Pointer,
    member: u32,
) -> Result<Step, Memory>
    ensures { IfOk result (λ s. outcome_seen globals.now state.new s ≡ spec.counting globals.now input.now (state_seen globals.now state.old) (pointer_seen from.now) member (λ count. giving_value (state_seen globals.now state.old) id (Word count))) }
{
    match counted(globals.decorations(), input, &state.buffers, from, member)? {
        None => Ok(Step::Stuck),
        Some(count) => give_value(state, id, Value::Word(count)),
    }
}
