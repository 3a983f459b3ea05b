//! Chains of indexes.

ghost use Rattle.std.specs.Prelude.{◌≡◌, IfOk};
ghost use Rattle.gsl_enact_memory.specs.Reaching.{pointer_seen, reaching};
ghost use Rattle.gsl_enact_state.specs.Seen.{state_seen};
ghost use Rattle.gsl_enact_steps.specs.Outcomes.{outcome_seen};
ghost use Rattle.gsl_machine.specs.Memory as spec;
ghost use Rattle.gsl_machine.specs.State.{Points, giving, on_pointer};
ghost use Rattle.gsl_words.specs.declared.module.Module.{Module};

use gsl_base::{Input, Memory};
use gsl_enact_memory::{Pointer, Reached};
use gsl_enact_state::{Globals, Held, State, give};
use gsl_enact_steps::Step;
use std::alloc::Global;

/// Gives an id what a chain of indexes leads to, from where a pointer leads. An index that is out of bounds strays at the place of the instruction.
pub fn chain(
    alloc: Global,
    globals: &Globals<'_>,
    input: &Input,
    place: u32,
    state: &mut State<'_>,
    id: u32,
    base: u32,
    indexes: &[u32],
) -> Result<Step, Memory>
    ensures { IfOk result (λ s. outcome_seen globals.now state.new s ≡ on_pointer ((state_seen globals.now state.old).ids base) (λ from. spec.along globals.now input.now place (state_seen globals.now state.old) from indexes.now (λ to. giving (state_seen globals.now state.old) id (Points to)))) }
{
    match globals.pointer(alloc, state, base)? {
        None => Ok(Step::Stuck),
        Some(from) => chain_from(alloc, globals, input, place, state, id, from, indexes),
    }
}

fn chain_from(
    alloc: Global,
    globals: &Globals<'_>,
    input: &Input,
    place: u32,
    state: &mut State<'_>,
    id: u32,
    from: Pointer,
    indexes: &[u32],
) -> Result<Step, Memory>
    ensures { IfOk result (λ s. outcome_seen globals.now state.new s ≡ spec.along globals.now input.now place (state_seen globals.now state.old) (pointer_seen from) indexes.now (λ to. giving (state_seen globals.now state.old) id (Points to))) }
{
    let reached = globals.along(alloc, input, state, from, indexes)?;
    give_reached(place, state, id, reached)
}

/// Gives an id what is reached, if something is.
fn give_reached(
    place: u32,
    state: &mut State<'_>,
    id: u32,
    reached: Reached,
) -> Result<Step, Memory>
    ensures { IfOk result (λ s. (m : Module) → outcome_seen m state.new s ≡ reaching reached place (λ to. giving (state_seen m state.old) id (Points to))) }
{
    match reached {
        Reached::To(to) => {
            give(state, id, Held::Points(to))?;
            Ok(Step::Going)
        }
        Reached::Strays => Ok(Step::Strayed(place)),
        Reached::Nowhere => Ok(Step::Stuck),
    }
}
