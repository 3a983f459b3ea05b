//! Calls of functions.

ghost use Rattle.std.specs.Prelude.{◌≡◌, IfOk, map};
ghost use Rattle.gsl_enact_control.specs.Called as here;
ghost use Rattle.gsl_enact_state.specs.Seen.{held_seen, ids_seen, state_seen};
ghost use Rattle.gsl_enact_steps.specs.Outcomes.{outcome_seen};
ghost use Rattle.gsl_machine.specs.Functions as machine;
ghost use Rattle.gsl_machine.specs.State.{on};
ghost use Rattle.gsl_machine.specs.Steps as spec;

use gsl_base::{List, Memory};
use gsl_enact_functions::{enter, function_at, wait};
use gsl_enact_state::{Code, Globals, Held, State};
use gsl_enact_steps::Step;
use std::alloc::Global;

/// What ids stand for, values and pointers alike, in their order, if each of them stands for something.
#[tactic(auto, unfolding(crate::specs::Called::held_in))]
fn all_held(
    alloc: Global,
    globals: &Globals<'_>,
    state: &State<'_>,
    ids: &[u32],
) -> Result<Option<List<Held>>, Memory>
    ensures { IfOk result (λ found. here.held_if found ≡ here.held_in (ids_seen globals.now state.now.own state.now.rows) ids.now) }
{
    let mut found = List::new(alloc);
    let mut rest = ids;
    while let [id, more @ ..] = rest {
        match globals.held(alloc, state, *id)? {
            None => return Ok(None),
            Some(held) => {
                found.push(held)?;
                rest = more;
            }
        }
    }
    Ok(Some(found))
}

/// A state waits for a call, and its function begins.
fn enter_waiting<'a>(
    alloc: Global,
    globals: &Globals<'a>,
    state: &mut State<'a>,
    id: u32,
    arguments: &[Held],
    body: &Code<'a>,
) -> Result<Step, Memory>
    ensures { IfOk result (λ s. outcome_seen globals.now state.new s ≡ spec.calling globals.now (state_seen globals.now state.old) id (map held_seen arguments.now) (machine.up_to_end body.now)) }
{
    wait(alloc, state, id)?;
    enter(alloc, globals, state, body, arguments)?;
    Ok(Step::Going)
}

fn call_with<'a>(
    alloc: Global,
    globals: &Globals<'a>,
    state: &mut State<'a>,
    id: u32,
    function: u32,
    arguments: &[Held],
) -> Result<Step, Memory>
    ensures { IfOk result (λ s. outcome_seen globals.now state.new s ≡ on (machine.function_at globals.now function) (spec.calling globals.now (state_seen globals.now state.old) id (map held_seen arguments.now))) }
{
    match function_at(globals, function) {
        None => Ok(Step::Stuck),
        Some(body) => enter_waiting(alloc, globals, state, id, arguments, &body),
    }
}

/// A call of a function: its state waits, and the function begins with what its arguments stand for.
#[tactic(auto, using(crate::proofs::Calling::on_each_is))]
pub fn call<'a>(
    alloc: Global,
    globals: &Globals<'a>,
    state: &mut State<'a>,
    id: u32,
    function: u32,
    arguments: &[u32],
) -> Result<Step, Memory>
    ensures { IfOk result (λ s. outcome_seen globals.now state.new s ≡ spec.on_each (state_seen globals.now state.old) arguments.now (λ held. on (machine.function_at globals.now function) (spec.calling globals.now (state_seen globals.now state.old) id held))) }
{
    match all_held(alloc, globals, state, arguments)? {
        None => Ok(Step::Stuck),
        Some(held) => call_with(alloc, globals, state, id, function, held.as_slice()),
    }
}
