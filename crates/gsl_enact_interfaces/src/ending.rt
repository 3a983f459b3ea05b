//! What comes out at the end of a run.

ghost use Rattle.std.specs.Prelude.{◌≡◌, [], IfOk, if◌then◌else◌};
ghost use Rattle.gsl_enact_state.specs.Seen.{state_seen};
ghost use Rattle.gsl_machine.specs.Interfaces as machine;
ghost use Rattle.gsl_views.specs.Buffers.{ascending};

use crate::outs::outs_of;
use gsl_base::{List, Memory, Output, Outs};
use gsl_decorations::Decorations;
use gsl_enact_state::{Globals, State, variables_outside};
use gsl_values::Values;
use std::alloc::Global;
use std::mem::replace;

/// The outputs, unless Kill ended the run.
#[tactic(auto, unfolding(crate::specs::Outputs::sorted))]
fn outs_left(
    alloc: Global,
    decorations: &Decorations<'_>,
    killed: bool,
    values: &Values,
) -> Result<Outs, Memory>
    ensures { IfOk result (λ outs. outs ≡ (if killed then [] else ascending (machine.outs_among decorations.now (machine.value_variables decorations.now) values.now))) }
{
    if killed {
        return Ok(List::new(alloc));
    }
    let variables = variables_outside(alloc, decorations.definitions(), false)?;
    let outs = outs_of(alloc, decorations, variables.as_slice(), values.as_slice())?;
    Ok(outs)
}

/// What comes out: all given buffers, which the state has no more then, and the outputs.
pub fn output_of(
    alloc: Global,
    globals: &Globals<'_>,
    killed: bool,
    state: &mut State<'_>,
) -> Result<Output, Memory>
    ensures { IfOk result (λ output. output ≡ machine.output_of globals.now killed (state_seen globals.now state.old)) }
{
    let outs = outs_left(alloc, globals.decorations(), killed, &state.variables)?;
    let buffers = replace(&mut state.buffers, List::new(alloc));
    Ok(Output {
        buffers,
        outs,
        killed,
        rest: state.choices.left(),
    })
}
