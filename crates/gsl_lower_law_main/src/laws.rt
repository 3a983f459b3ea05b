//! Laws of the definitions: calls that do nothing, whose contracts are the laws.

ghost use Rattle.std.specs.Prelude.{◌≡◌, ℕ, [], false};
ghost use Rattle.gsl_base.specs.declared.input.Input.{Input};
ghost use Rattle.gsl_words.specs.declared.module.Module.{Module};
ghost use Rattle.gsl_values.specs.declared.value.Value.{Value};
ghost use Rattle.gsl_tree.specs.Around.{Around};
ghost use Rattle.gsl_tree.specs.declared.program.Program.{Program};
ghost use Rattle.gsl_meaning.specs.Shader.{output_of};
ghost use Rattle.gsl_meaning.specs.State as shader;
ghost use Rattle.gsl_machine.specs.Interfaces as interfaces;
ghost use Rattle.gsl_machine.specs.State.{State};
ghost use Rattle.gsl_spv.specs.Sections.{Sections};
ghost use Rattle.gsl_lower_follows.specs.Frames.{AreTyped, Frame, Holds};
ghost use Rattle.gsl_lower_law_main.specs.Ending.{EndsAlike, HasOutputs};
ghost use Rattle.gsl_lower_law_stmt.specs.Doing.{AtReturn};

/// Where variables have the values of the shader's state, the module gives out what the shader does.
pub fn outputs_are_told()
    ensures { (m : Module) (input : Input) (whole : Sections) (f : Frame m input whole) (p : Program) (around : Around) → HasOutputs m input whole f p → around.interfaces ≡ p.interfaces → (s : shader.State) (state : State) → Holds m input whole f p around s state → AreTyped m input whole f p around s → interfaces.output_of m false state ≡ output_of p input false s }
{}

/// A return of a function that no other called ends the module, with the outputs of the shader.
pub fn main_ends()
    ensures { (m : Module) (input : Input) (whole : Sections) (f : Frame m input whole) (p : Program) (around : Around) → HasOutputs m input whole f p → around.interfaces ≡ p.interfaces → f.waiting ≡ [] → (v : Value) (s : shader.State) (units : ℕ) (state : State) → AtReturn m input whole f p around v s state → EndsAlike m input p 0 units state s }
{}
