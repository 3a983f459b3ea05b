//! Laws of the definitions: calls that do nothing, whose contracts are the laws.

ghost use Rattle.gsl_base.specs.declared.input.Input.{Input};
ghost use Rattle.gsl_lower_flow.specs.Programs.{lowered};
ghost use Rattle.gsl_lower_flow.specs.Reaching.{is_lowered};
ghost use Rattle.gsl_lower_holders.specs.Flow.{Flow, Gives};
ghost use Rattle.gsl_lower_law_linked.specs.Nesting.{AreOnce, MayNest};
ghost use Rattle.gsl_lower_law_program.specs.Alike.{BeginAlike};
ghost use Rattle.gsl_lower_law_shader.specs.Asked.{AllAsked};
ghost use Rattle.gsl_lower_law_program.specs.Ranks.{rank_of};
ghost use Rattle.gsl_lower_law_program.specs.Standing.{HaveFunctions};
ghost use Rattle.gsl_lower_law_shader.specs.Alike.{EndsAs};
ghost use Rattle.gsl_lower_law_shader.specs.Depths.{CallsDo};
ghost use Rattle.gsl_machine.specs.Machine.{start};
ghost use Rattle.gsl_meaning.specs.Shader.{most_calls, shader};
ghost use Rattle.gsl_spv.specs.Finished.{module_of};
ghost use Rattle.gsl_spv.specs.Sections.{empty};
ghost use Rattle.gsl_tree.specs.WellTyped.{AreWellTyped, IsProgram, program_lists};
ghost use Rattle.gsl_tree.specs.declared.program.Program.{Program};
ghost use Rattle.gsl_valid.specs.Valid.{Valid};
ghost use Rattle.gsl_values.specs.declared.value.Value.{Value};
ghost use Rattle.gsl_words.specs.declared.target.Target.{Target};
ghost use Rattle.std.specs.Prelude.{List, Option, ℕ, ◌<◌, ◌≡◌, ◌≤◌};

/// In the valid module of a well typed program each function that is lowered stands as it is lowered.
pub fn lowered_functions_stand()
    ensures { (p : Program) → AreWellTyped (program_lists p) → (target : Target) (main : ℕ) (flow : Flow) → lowered target p (empty p.stage target) ≡ Gives main flow → Valid (module_of flow.sections main p.local_size) → HaveFunctions target p main flow }
{}

/// Each call of a function of the program does what it means, wherever in the module it is called, where what is asked of the expressions in its functions is so: of calls themselves nothing is asked.
pub fn calls_of_programs_do()
    ensures { (target : Target) (p : Program) (main : ℕ) (flow : Flow) → IsProgram p → MayNest p → Valid (module_of flow.sections main p.local_size) → (h : HaveFunctions target p main flow) → (input : Input) (stages : List (Option Value)) → AllAsked (module_of flow.sections main p.local_size) input flow.sections p h.place stages (is_lowered p) → (depth number : ℕ) → depth ≤ most_calls → rank_of p number < depth → CallsDo (module_of flow.sections main p.local_size) input flow.sections p h.place stages depth number }
{}

/// From its start the valid module of a program ends as the shader does on the input: with the same output, astray where an index is out of bounds, or still going after as many instructions as there are units. That is so where what is asked of
/// the expressions in its functions is so, and where the variables outside functions and the blocks begin alike.
pub fn programs_end_as_shaders()
    ensures { (target : Target) (p : Program) (main : ℕ) (flow : Flow) → IsProgram p → MayNest p → AreOnce p → Valid (module_of flow.sections main p.local_size) → (h : HaveFunctions target p main flow) → (input : Input) (stages : List (Option Value)) → AllAsked (module_of flow.sections main p.local_size) input flow.sections p h.place stages (is_lowered p) → BeginAlike (module_of flow.sections main p.local_size) input h.place flow.sections p stages → (units : ℕ) → EndsAs (module_of flow.sections main p.local_size) input units (start (module_of flow.sections main p.local_size) input) (shader p units input) }
{}
