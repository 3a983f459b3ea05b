//! Calls.

ghost use Rattle.std.specs.Prelude.{◌≡◌, OnErr, OnOk};
ghost use Rattle.gsl_ids.specs.Table.{number_of};
ghost use Rattle.gsl_instr.specs.declared.instruction.Instruction.TheVariants as instruction;
ghost use Rattle.gsl_positions.specs.Positions.{left};
ghost use Rattle.gsl_step.specs.Machine.{Does};
ghost use Rattle.gsl_step_calls.specs.Calling.{HasRoomToCall};
ghost use Rattle.gsl_step_entering.specs.Entered as spec;

use crate::arguments::put_arguments;
use crate::numbers::{first_at, frame_at};
use crate::variables::put_variables;
use gsl_base::Memory;
use gsl_operands::Operands;
use gsl_step::{Machine, Standing};

/// A machine stands at the first label of a function, with what this is given and what its variables begin as.
fn enter(operands: &Operands<'_>, machine: &mut Machine, function: u32, arguments: &[u32])
    ensures { spec.PutsEntered operands.now function arguments.now machine.old machine.new }
{
    let frames = operands.frames();
    let definitions = frames.leaves().definitions();
    let body = definitions.number(function);
    let taken = frame_at(frames, machine.standing.body);
    let base = machine.standing.slots.saturating_add(taken.most);
    let begin = machine.standing.variables.saturating_add(taken.variables);
    put_arguments(operands, machine, arguments, base);
    put_variables(operands, &machine.slots, &mut machine.words, body, begin);
    let first = first_at(definitions, body);
    machine.standing = Standing {
        at: first,
        body,
        slots: base,
        variables: begin,
    };
}

/// FunctionCall, where there is room for what the function takes. Where memory is wanting for one function more that waits, nothing has changed.
pub fn call(
    operands: &Operands<'_>,
    machine: &mut Machine,
    type_: u32,
    result_id: u32,
    function: u32,
    arguments: &[u32],
) -> Result<(), Memory>
    ensures ok { OnOk result (HasRoomToCall operands.now machine.old (left operands.now machine.old.standing.body) (left operands.now (number_of operands.now function)) → Does operands.now (instruction.FunctionCall type_ result_id function arguments.now) machine.old machine.new) }
    ensures memory { OnErr result (machine.new ≡ machine.old) }
{
    let _call = (type_, result_id);
    let caller = machine.standing;
    match machine.callers.push(caller) {
        Err(error) => Err(error),
        Ok(()) => {
            enter(operands, machine, function, arguments);
            Ok(())
        }
    }
}
