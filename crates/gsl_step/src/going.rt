//! Where code goes on.

ghost use Rattle.std.specs.Prelude.{◌≡◌, ◌+◌, ◌<◌, ◌^◌, ℕ};
ghost use Rattle.gsl_instr.specs.declared.instruction.Instruction.TheVariants as instruction;
ghost use Rattle.gsl_step.specs.Machine.{Does};
ghost use Rattle.gsl_words.specs.declared.module.Module.{Module};

use crate::machine::Machine;
use crate::standing::Standing;

/// A function goes on behind its next instruction.
pub fn pass(standing: &mut Standing)
    ensures { standing.old.at + 1 < 2 ^ 32 → standing.new ≡ record standing.old { at = standing.old.at + 1 } }
{
    standing.at = standing.at.saturating_add(1);
}

/// A merge, and a label, where a block begins.
pub fn merge(machine: &mut Machine)
    ensures label { (m : Module) (label : ℕ) → Does m (instruction.Label label) machine.old machine.new }
    ensures selection { (m : Module) (merge control : ℕ) → Does m (instruction.SelectionMerge merge control) machine.old machine.new }
    ensures loop_ { (m : Module) (merge continue_target control : ℕ) → Does m (instruction.LoopMerge merge continue_target control) machine.old machine.new }
{
    pass(&mut machine.standing);
}
