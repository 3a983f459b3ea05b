//! Laws of the definitions: calls that do nothing, whose contracts are the laws.

ghost use Rattle.std.specs.Prelude.{◌≡◌, ℕ, Ok};
ghost use Rattle.gsl_base.specs.declared.input.Input.{Input};
ghost use Rattle.gsl_words.specs.declared.module.Module.{Module};
ghost use Rattle.gsl_valid.specs.Valid.{Valid};
ghost use Rattle.gsl_machine.specs.Fits.{fits};
ghost use Rattle.gsl_machine.specs.Machine.{after, step};
ghost use Rattle.gsl_machine.specs.State.{Going, State};
ghost use Rattle.gsl_sound.specs.Sound.{Fine, Good, IsNeverStuck};

/// A run of a valid module on an input that fits it is never stuck: after any count of instructions it goes on, has ended, or strayed at an
/// index that is out of bounds.
pub fn valid_modules_are_never_stuck()
    ensures { (m : Module) (input : Input) → IsNeverStuck m input }
{}

/// Each state that such a run reaches is good: its code stands in a function that keeps the rules, each id that may be used stands for what
/// is of its type, a pointer leads into a block or to one of its variables, and so it is in each of the calls that wait.
pub fn reached_states_are_good()
    ensures { (m : Module) (input : Input) (count : ℕ) (state : State) → Valid m → fits m input ≡ Ok tt → after m count input ≡ Going state → Good m input state }
{}

/// In a valid module an instruction leads from a good state to a good one, ends the run or strays.
pub fn steps_keep_states_good()
    ensures { (m : Module) (input : Input) (state : State) → Valid m → Good m input state → Fine m input (step m input state) }
{}
