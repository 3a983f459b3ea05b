//! Ends of runs and of functions.

ghost use Rattle.std.specs.Prelude.{ℕ};
ghost use Rattle.gsl_instr.specs.declared.instruction.Instruction.TheVariants as instruction;
ghost use Rattle.gsl_step_calls.specs.Ending.{DoesOrEnds};
ghost use Rattle.gsl_words.specs.declared.module.Module.{Module};

use crate::next::Next;
use gsl_step::{Machine, pass};

/// Kill.
pub fn kill(machine: &Machine) -> Next
    ensures { (m : Module) → DoesOrEnds m instruction.Kill machine.now machine.now result }
{
    let _machine = machine;
    Next::Ends { killed: true }
}

/// Return: the function that waits goes on behind its call, or the run ends.
pub fn leave(machine: &mut Machine) -> Next
    ensures { (m : Module) → DoesOrEnds m instruction.Return machine.old machine.new result }
{
    match machine.callers.pop() {
        None => Next::Ends { killed: false },
        Some(caller) => {
            machine.standing = caller;
            pass(&mut machine.standing);
            Next::Goes
        }
    }
}
