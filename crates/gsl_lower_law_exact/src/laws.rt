//! Laws of the definitions: calls that do nothing, whose contracts are the laws.

ghost use Rattle.gsl_base.specs.Proper.{IsProper};
ghost use Rattle.gsl_base.specs.Ranges.{FitsTypes};
ghost use Rattle.gsl_base.specs.declared.input.Input.{Input};
ghost use Rattle.gsl_lower_law_exact.specs.Exactly.{Does, EndsExactly};
ghost use Rattle.gsl_lower_law_exact.specs.Sizes.{IsShortFor};
ghost use Rattle.gsl_lower_flow.specs.Programs.{lowered, module_for, program_needs, uses};
ghost use Rattle.gsl_lower_flow.specs.Reaching.{is_lowered};
ghost use Rattle.gsl_lower_follows.specs.Frames.{Frame};
ghost use Rattle.gsl_lower_holders.specs.Flow.{Flow, Gives};
ghost use Rattle.gsl_lower_law_entered.specs.Modules.{IsFrame};
ghost use Rattle.gsl_lower_law_program.specs.OfLawEvaluated.{KnowsStage};
ghost use Rattle.gsl_lower_law_buffers.specs.OfLawInputs.{AreInitialised, stages_given};
ghost use Rattle.gsl_lower_law_linked.specs.Nesting.{AreOnce, MayNest};
ghost use Rattle.gsl_lower_law_program.specs.Alike.{BeginAlike};
ghost use Rattle.gsl_lower_law_program.specs.Shaders.{AllAsked, EndsAs, stage_of};
ghost use Rattle.gsl_lower_law_program.specs.Standing.{HaveFunctions};
ghost use Rattle.gsl_machine.specs.Fits as machine_fits;
ghost use Rattle.gsl_machine.specs.Machine.{start};
ghost use Rattle.gsl_meaning.specs.Fits as meaning_fits;
ghost use Rattle.gsl_meaning.specs.Shader.{shader};
ghost use Rattle.gsl_owed.specs.Runs.{IsFitting, Runs};
ghost use Rattle.gsl_spv.specs.Finished.{module_of};
ghost use Rattle.gsl_spv.specs.Sections.{empty};
ghost use Rattle.gsl_tree.specs.WellTyped.{IsProgram};
ghost use Rattle.gsl_tree.specs.declared.expr.StageVar.{StageVar};
ghost use Rattle.gsl_tree.specs.declared.program.Program.{Program};
ghost use Rattle.gsl_valid.specs.Valid.{Valid};
ghost use Rattle.gsl_words.specs.declared.module.Module.{Module};
ghost use Rattle.gsl_words.specs.declared.target.Target.{Target};
ghost use Rattle.std.specs.Prelude.{Some, [], true, ℕ, ◌≡◌};

/// In a program the initialiser of each global variable has a value of its type (GLSL 4.50, 4.3.3).
pub fn initialisers_are_typed()
    ensures { (p : Program) → IsProgram p → AreInitialised p }
{}

/// On an input that fits, the valid module of a program and the shader begin alike: variables outside functions with the same values, which are of their types, blocks with the words that are seen in the same bytes, and with the outputs of the program.
pub fn programs_begin_alike()
    ensures { (target : Target) (p : Program) (main : ℕ) (flow : Flow) → IsProgram p → lowered target p (empty p.stage target) ≡ Gives main flow → Valid (module_of flow.sections main p.local_size) → (h : HaveFunctions target p main flow) → (input : Input) → IsFitting p input → BeginAlike (module_of flow.sections main p.local_size) input h.place flow.sections p (stages_given h.place.stage_vars p.local_size input) }
{}

/// In each frame of the module of a program a built-in variable that the program asks for has a variable, which begins with its value.
pub fn built_in_variables_are_known()
    ensures { (target : Target) (p : Program) (main : ℕ) (flow : Flow) (h : HaveFunctions target p main flow) (input : Input) (f : Frame (module_of flow.sections main p.local_size) input flow.sections) → IsFrame (module_of flow.sections main p.local_size) input flow.sections h.place (stages_given h.place.stage_vars p.local_size input) f → (var : StageVar) → uses (program_needs p) var ≡ true → KnowsStage (module_of flow.sections main p.local_size) input flow.sections f (stage_of p input) var }
{}

/// In a program without blocks all that is asked of the expressions in its functions is so, where the numbers of the input are in the ranges of their types.
pub fn programs_without_blocks_are_asked()
    ensures { (target : Target) (p : Program) (main : ℕ) (flow : Flow) → IsProgram p → p.blocks ≡ [] → (h : HaveFunctions target p main flow) → (input : Input) → FitsTypes input → AllAsked (module_of flow.sections main p.local_size) input flow.sections p h.place (stages_given h.place.stage_vars p.local_size input) (is_lowered p) }
{}

/// In a program all that is asked of the expressions in its functions is so, on an input that fits and that has fewer than 2^32 bytes in each buffer where the program has blocks.
pub fn programs_are_asked()
    ensures { (target : Target) (p : Program) (main : ℕ) (flow : Flow) → IsProgram p → Valid (module_of flow.sections main p.local_size) → (h : HaveFunctions target p main flow) → (input : Input) → IsFitting p input → IsShortFor p input → AllAsked (module_of flow.sections main p.local_size) input flow.sections p h.place (stages_given h.place.stage_vars p.local_size input) (is_lowered p) }
{}

/// On an input that fits, the valid module of a program does what the shader does, where what is asked of the expressions in its functions is so.
pub fn programs_do_as_shaders()
    ensures { (target : Target) (p : Program) (main : ℕ) (flow : Flow) → IsProgram p → MayNest p → AreOnce p → lowered target p (empty p.stage target) ≡ Gives main flow → Valid (module_of flow.sections main p.local_size) → (h : HaveFunctions target p main flow) → (input : Input) → IsFitting p input → AllAsked (module_of flow.sections main p.local_size) input flow.sections p h.place (stages_given h.place.stage_vars p.local_size input) (is_lowered p) → Does (module_of flow.sections main p.local_size) p input }
{}

/// The valid module that a program is lowered to does what the shader does on every input that fits and that has fewer than 2^32 bytes in each buffer where the program has blocks: it ends with an output exactly when the shader does, it strays exactly when the shader does, and it never comes to an instruction that is none.
pub fn programs_end_exactly()
    ensures { (target : Target) (p : Program) (m : Module) → IsProgram p → MayNest p → AreOnce p → module_for target p ≡ Some m → Valid m → (input : Input) → IsFitting p input → IsShortFor p input → Does m p input × EndsExactly m p input }
{}

/// Where it has no blocks, so it is on every input that fits.
pub fn programs_without_blocks_end_exactly()
    ensures { (target : Target) (p : Program) (m : Module) → IsProgram p → MayNest p → AreOnce p → p.blocks ≡ [] → module_for target p ≡ Some m → Valid m → (input : Input) → IsFitting p input → Does m p input × EndsExactly m p input }
{}

/// The valid module that a program is lowered to refuses the inputs that the program refuses, each with the same first refusal.
pub fn programs_fit_alike()
    ensures { (target : Target) (p : Program) (m : Module) → IsProgram p → module_for target p ≡ Some m → Valid m → (input : Input) → machine_fits.fits m input ≡ meaning_fits.fits p input }
{}

/// What comes to what the shader comes to, with any number of units, does what the shader does, within so many instructions for each unit.
pub fn what_ends_alike_does_so()
    ensures { (m : Module) (p : Program) (input : Input) → ((units : ℕ) → EndsAs m input units (start m input) (shader p units input)) → Does m p input }
{}

/// A module that does what the shader does on an input ends with an output exactly when the shader does, strays exactly when the shader does, and never comes to an instruction that is none.
pub fn what_does_so_ends_exactly()
    ensures { (m : Module) (p : Program) (input : Input) → Does m p input → EndsExactly m p input }
{}

/// A module that does so on every input that fits, and refuses the inputs that the program refuses, runs as the program.
pub fn what_does_so_runs()
    ensures { (m : Module) (p : Program) → ((input : Input) → IsProper input → machine_fits.fits m input ≡ meaning_fits.fits p input) → ((input : Input) → IsFitting p input → Does m p input) → Runs m p }
{}
