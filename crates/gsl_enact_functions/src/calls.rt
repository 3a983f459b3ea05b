//! Calls, and what they come back to.

ghost use Rattle.std.specs.Prelude.{◌≡◌, ◌∷◌, OnOk, MatchOption, Some, None};
ghost use Rattle.gsl_enact_functions.specs.Bodies as bodies;
ghost use Rattle.gsl_enact_state.specs.Seen as seen;
ghost use Rattle.gsl_machine.specs.Functions as machine;
ghost use Rattle.gsl_words.specs.declared.module.Module.{Module};

use gsl_base::{List, Memory};
use gsl_enact_state::{State, Waiting};
use std::alloc::Global;
use std::mem::replace;

/// The call that a state waits for, with the id of its result. The state has no ids of its own then.
fn call_from<'a>(alloc: Global, state: &mut State<'a>, id: u32) -> Waiting<'a>
    ensures call { (m : Module) → seen.waiting_seen m result ≡ machine.call_from id (seen.state_seen m state.old) }
    ensures variables { state.new.variables ≡ state.old.variables }
    ensures buffers { state.new.buffers ≡ state.old.buffers }
    ensures choices { state.new.choices ≡ state.old.choices }
    ensures waiting { state.new.waiting ≡ state.old.waiting }
{
    Waiting {
        result: id,
        rest: state.rest.copied(),
        body: state.body.copied(),
        own: replace(&mut state.own, List::new(alloc)),
        rows: replace(&mut state.rows, List::new(alloc)),
        count: state.variables.len(),
    }
}

/// A state waits for a call.
pub fn wait(alloc: Global, state: &mut State<'_>, id: u32) -> Result<(), Memory>
    ensures waiting { OnOk result ((m : Module) → seen.calls_seen m state.new.waiting ≡ machine.call_from id (seen.state_seen m state.old) ∷ seen.calls_seen m state.old.waiting) }
    ensures variables { OnOk result (state.new.variables ≡ state.old.variables) }
    ensures buffers { OnOk result (state.new.buffers ≡ state.old.buffers) }
    ensures choices { OnOk result (state.new.choices ≡ state.old.choices) }
{
    let call = call_from(alloc, state, id);
    state.waiting.push(call)?;
    Ok(())
}

/// The function that was called last is left: the id of the call's result, or `None` where no call waits.
pub fn back(state: &mut State<'_>) -> Option<u32>
    ensures { MatchOption result ((m : Module) → (bodies.returned (seen.calls_seen m state.old.waiting) (seen.state_seen m state.old) ≡ None) × (seen.state_seen m state.new ≡ seen.state_seen m state.old))
        (λ id. (m : Module) → bodies.returned (seen.calls_seen m state.old.waiting) (seen.state_seen m state.old) ≡ Some (id, seen.state_seen m state.new)) }
{
    match state.waiting.pop() {
        None => None,
        Some(call) => {
            let Waiting {
                result,
                rest,
                body,
                own,
                rows,
                count,
            } = call;
            state.rest = rest;
            state.body = body;
            state.own = own;
            state.rows = rows;
            state.variables.truncate(count);
            Some(result)
        }
    }
}
