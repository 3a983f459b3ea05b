//! A run of a module.

ghost use Rattle.std.specs.Prelude.{◌≡◌, ◌==◌, ◌<◌, ◌^◌, IfOk, length};
ghost use Rattle.gsl_enact.specs.Came as spec;
ghost use Rattle.gsl_enact_state.specs.Seen.{state_seen};
ghost use Rattle.gsl_enact_steps.specs.Outcomes.{outcome_seen};
ghost use Rattle.gsl_instr.specs.declared.op.TheConstants as ops;
ghost use Rattle.gsl_machine.specs.Machine as machine;
ghost use Rattle.gsl_valid.specs.Placed.{count_of_words};

use crate::acting::act;
use crate::entry::start;
use gsl_base::{Input, Memory};
use gsl_decorations::Decorations;
use gsl_enact_state::{Globals, State};
use gsl_enact_steps::Step;
use gsl_instr::{Instruction, op, read};
use std::alloc::Global;

/// What the instruction that stands at a place does, if there is one.
fn act_if<'a>(
    alloc: Global,
    globals: &Globals<'a>,
    input: &Input,
    place: u32,
    state: &mut State<'a>,
    instruction: Option<Instruction<'_>>,
) -> Result<Step, Memory>
    ensures { IfOk result (λ s. outcome_seen globals.now state.new s ≡ spec.acting globals.now input.now place (state_seen globals.now state.old) instruction.entry) }
{
    match instruction {
        None => Ok(Step::Stuck),
        Some(instruction) => act(alloc, globals, input, place, state, instruction),
    }
}

fn is_end(op: u16) -> bool
    ensures { result ≡ (op == ops.FUNCTION_END) }
{
    op == op::FUNCTION_END
}

/// What the first of the instructions still to come does.
#[tactic(auto, using(crate::proofs::Stepped::at_end))]
fn step<'a>(
    alloc: Global,
    globals: &Globals<'a>,
    input: &Input,
    state: &mut State<'a>,
) -> Result<Step, Memory>
    ensures { IfOk result (λ s. outcome_seen globals.now state.new s ≡ machine.step globals.now input.now (state_seen globals.now state.old)) }
{
    match state.rest.next() {
        None => Ok(Step::Stuck),
        Some((place, op, args)) => {
            if is_end(op) {
                return Ok(Step::Stuck);
            }
            act_if(alloc, globals, input, place, state, read(op, args))
        }
    }
}

/// So many instructions from a state on, or as many as there are.
fn run<'a>(
    alloc: Global,
    globals: &Globals<'a>,
    input: &Input,
    steps: u64,
    state: &mut State<'a>,
) -> Result<Step, Memory>
    ensures { IfOk result (λ s. outcome_seen globals.now state.new s ≡ machine.run globals.now input.now steps (state_seen globals.now state.old)) }
{
    let mut left = steps;
    while left > 0 {
        left -= 1;
        match step(alloc, globals, input, state)? {
            Step::Going => {}
            over => return Ok(over),
        }
    }
    Ok(Step::Going)
}

/// What a module comes to on an input after so many instructions: it is still going, ended with an output, strayed at the first word of the instruction of an index
/// that is out of bounds, or is stuck where no meaning is given. Memory is wanting where it was, or where there are 2^32 choices or more.
pub fn run_module(
    alloc: Global,
    decorations: &Decorations<'_>,
    input: &Input,
    steps: u64,
) -> Result<Step, Memory>
    requires few { length decorations.now.instrs < 2 ^ 32 }
    requires words { count_of_words decorations.now < 2 ^ 32 }
    ensures { IfOk result (λ s. s ≡ spec.came (machine.after decorations.now steps input.now)) }
{
    let globals = Globals::new(alloc, decorations)?;
    let mut state = start(alloc, &globals, input)?;
    let step = run(alloc, &globals, input, steps, &mut state)?;
    Ok(step)
}
