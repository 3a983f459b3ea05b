//! Laws of the definitions: calls that do nothing, whose contracts are the laws.

ghost use Rattle.gsl_base.specs.declared.input.Input.{Input};
ghost use Rattle.gsl_lower_follows.specs.Frames.{Frame, Good};
ghost use Rattle.gsl_lower_holders.specs.Flow.{Flow};
ghost use Rattle.gsl_machine.specs.State.{State};
ghost use Rattle.gsl_meaning.specs.State as shader;
ghost use Rattle.gsl_sound_types.specs.Typed.{Typed};
ghost use Rattle.gsl_spv.specs.Sections.{Sections};
ghost use Rattle.gsl_tree.specs.Around.{Around};
ghost use Rattle.gsl_tree.specs.declared.program.Program.{Program};
ghost use Rattle.gsl_words.specs.declared.module.Module.{Module};

/// A state of the module that is one of the shader is typed: its variables have the shapes of the types that the module declares, and each id stands for what is of its type.
pub fn states_of_shaders_are_typed()
    ensures { (m : Module) (input : Input) (whole : Sections) (f : Frame m input whole) (p : Program) (around : Around) (b : Flow) (s : shader.State) (state : State) → Good m input whole f p around b s state → Typed m state }
{}
