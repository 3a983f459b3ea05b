//! What a step comes to.

ghost use Rattle.std.specs.Prelude.{◌≡◌, IfOk};
ghost use Rattle.gsl_enact_state.specs.Seen.{state_seen};
ghost use Rattle.gsl_enact_steps.specs.Outcomes.{outcome_seen};
ghost use Rattle.gsl_machine.specs.State.{giving_value};
ghost use Rattle.gsl_words.specs.declared.module.Module.{Module};

use gsl_base::{Memory, Output};
use gsl_enact_state::{Held, State, give};
use gsl_values::Value;

/// What a step comes to, beside the state. An index strays at the first word of its instruction; where no meaning is given the run is stuck.
#[derive(Drop)]
pub enum Step {
    Going,
    Ended(Output),
    Strayed(u32),
    Stuck,
}

/// Gives an id a value.
pub fn give_value(state: &mut State<'_>, id: u32, value: Value) -> Result<Step, Memory>
    ensures { IfOk result (λ s. (m : Module) → outcome_seen m state.new s ≡ giving_value (state_seen m state.old) id value) }
{
    give(state, id, Held::Whole(value))?;
    Ok(Step::Going)
}
