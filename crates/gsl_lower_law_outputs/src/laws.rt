//! Laws of the definitions: calls that do nothing, whose contracts are the laws.

ghost use Rattle.gsl_base.specs.declared.input.Input.{Input};
ghost use Rattle.gsl_lower_flow.specs.Programs.{lowered};
ghost use Rattle.gsl_lower_follows.specs.Frames.{Frame};
ghost use Rattle.gsl_lower_holders.specs.Flow.{Flow, Gives};
ghost use Rattle.gsl_lower_law_inputs.specs.OfLawOutside.{HaveOutside};
ghost use Rattle.gsl_lower_law_outputs.specs.Outputs.{DeclaresNoOutput};
ghost use Rattle.gsl_lower_law_inputs.specs.OfLawEntered.{IsFrame};
ghost use Rattle.gsl_lower_law_main.specs.Ending.{HasOutputs};
ghost use Rattle.gsl_spv.specs.Finished.{module_of};
ghost use Rattle.gsl_spv.specs.Sections.{empty};
ghost use Rattle.gsl_tree.specs.WellTyped.{IsProgram};
ghost use Rattle.gsl_tree.specs.declared.program.Program.{Program};
ghost use Rattle.gsl_valid.specs.Valid.{Valid};
ghost use Rattle.gsl_values.specs.declared.value.Value.{Value};
ghost use Rattle.gsl_words.specs.declared.target.Target.{Target};
ghost use Rattle.std.specs.Prelude.{List, Option, ℕ, ◌≡◌};

/// The outputs of the module are those of the program, in their order, each at the position of its variable and with its location, where no more are declared once all is put that stands outside functions (GLSL 4.50, 4.3.6).
pub fn outputs_stand()
    ensures { (target : Target) (p : Program) (main : ℕ) (flow : Flow) → IsProgram p → Valid (module_of flow.sections main p.local_size) → (h : HaveOutside target p main flow) → DeclaresNoOutput h.first flow.sections → (input : Input) (stages : List (Option Value)) (f : Frame (module_of flow.sections main p.local_size) input flow.sections) → IsFrame (module_of flow.sections main p.local_size) input flow.sections h.place stages f → HasOutputs (module_of flow.sections main p.local_size) input flow.sections f p }
{}

/// What functions are lowered to declares no output.
pub fn functions_declare_no_outputs()
    ensures { (target : Target) (p : Program) (main : ℕ) (flow : Flow) → lowered target p (empty p.stage target) ≡ Gives main flow → (h : HaveOutside target p main flow) → DeclaresNoOutput h.first flow.sections }
{}
