//! Returns, and the end of a run.

ghost use Rattle.std.specs.Prelude.{◌≡◌, IfOk};
ghost use Rattle.gsl_enact_state.specs.Seen.{state_seen};
ghost use Rattle.gsl_enact_steps.specs.Outcomes.{outcome_seen};
ghost use Rattle.gsl_machine.specs.Interfaces.{output_of as output};
ghost use Rattle.gsl_machine.specs.State.{Ended, on_whole};
ghost use Rattle.gsl_machine.specs.Steps as spec;

use gsl_base::Memory;
use gsl_enact_functions::back;
use gsl_enact_interfaces::output_of;
use gsl_enact_state::{Globals, State};
use gsl_enact_steps::{Step, give_value};
use gsl_values::Value;
use std::alloc::Global;

/// The run ends, by Kill or by the return of the entry.
pub fn end(
    alloc: Global,
    globals: &Globals<'_>,
    killed: bool,
    state: &mut State<'_>,
) -> Result<Step, Memory>
    ensures { IfOk result (λ s. outcome_seen globals.now state.new s ≡ Ended (output globals.now killed (state_seen globals.now state.old))) }
{
    let output = output_of(alloc, globals, killed, state)?;
    Ok(Step::Ended(output))
}

/// The return of the function that was called last, or of the entry.
#[tactic(auto, using(crate::proofs::Returning::leaving_is))]
pub fn leave(alloc: Global, globals: &Globals<'_>, state: &mut State<'_>) -> Result<Step, Memory>
    ensures { IfOk result (λ s. outcome_seen globals.now state.new s ≡ spec.returning globals.now (state_seen globals.now state.old) (state_seen globals.now state.old).waiting spec.without_value) }
{
    match back(state) {
        None => end(alloc, globals, false, state),
        Some(_) => Ok(Step::Going),
    }
}

#[tactic(auto, using(crate::proofs::Returning::leaving_with_is))]
fn leave_as(
    alloc: Global,
    globals: &Globals<'_>,
    state: &mut State<'_>,
    v: Value,
) -> Result<Step, Memory>
    ensures { IfOk result (λ s. outcome_seen globals.now state.new s ≡ spec.returning globals.now (state_seen globals.now state.old) (state_seen globals.now state.old).waiting (spec.with_value v)) }
{
    match back(state) {
        None => end(alloc, globals, false, state),
        Some(id) => give_value(state, id, v),
    }
}

/// The return with the value of an id, which the id of the call gets.
pub fn leave_with(
    alloc: Global,
    globals: &Globals<'_>,
    state: &mut State<'_>,
    value: u32,
) -> Result<Step, Memory>
    ensures { IfOk result (λ s. outcome_seen globals.now state.new s ≡ on_whole ((state_seen globals.now state.old).ids value) (λ v. spec.returning globals.now (state_seen globals.now state.old) (state_seen globals.now state.old).waiting (spec.with_value v))) }
{
    match globals.value(alloc, state, value)? {
        None => Ok(Step::Stuck),
        Some(v) => leave_as(alloc, globals, state, v),
    }
}
