//! Laws of the definitions: calls that do nothing, whose contracts are the laws.

ghost use Rattle.std.specs.Prelude.{◌≡◌, ℕ, Ok};
ghost use Rattle.gsl_base.specs.Ranges.{FitsTypes};
ghost use Rattle.gsl_base.specs.declared.input.Input.{Input};
ghost use Rattle.gsl_machine.specs.Fits.{fits};
ghost use Rattle.gsl_machine.specs.Machine.{after, step};
ghost use Rattle.gsl_machine.specs.State.{Going, State};
ghost use Rattle.gsl_sound.specs.Sound.{Good};
ghost use Rattle.gsl_sound_types.specs.Typed.{Typed};
ghost use Rattle.gsl_valid.specs.Valid.{Valid};
ghost use Rattle.gsl_words.specs.declared.module.Module.{Module};

/// Each state that a run of a valid module reaches, on an input that fits it, is typed: its variables have the shapes of the types that the module
/// declares, each id stands for what is of its type, a pointer for a place where there is what it points to, and so it is in each of the calls that wait.
pub fn reached_states_are_typed()
    ensures { (m : Module) (input : Input) (count : ℕ) (state : State) → Valid m → FitsTypes input → fits m input ≡ Ok tt → after m count input ≡ Going state → Typed m state }
{}

/// In a valid module an instruction leads from a good and typed state to a typed one, where the run goes on.
pub fn steps_keep_states_typed()
    ensures { (m : Module) (input : Input) (state next : State) → Valid m → Good m input state → Typed m state → step m input state ≡ Going next → Typed m next }
{}
