//! Laws of sources: what the module does that they compile to, and what they mean. Calls that do nothing, whose contracts are the laws.

ghost use Rattle.std.specs.Prelude.{List, Ok, Some, [], length, ℕ, ◌≡◌, ◌≤◌};
ghost use Rattle.gsl_base.specs.declared.input.Input.{Input};
ghost use Rattle.gsl_base.specs.declared.input.Output.{Output};
ghost use Rattle.gsl_base.specs.declared.stage.Stage.{Stage};
ghost use Rattle.gsl_exec.specs.Done.{HasEnded};
ghost use Rattle.gsl_given_law.specs.Files.{HoldBytes};
ghost use Rattle.gsl_host.specs.Outside.{Files, Name};
ghost use Rattle.gsl_lower_flow.specs.Programs.{module_for};
ghost use Rattle.gsl_lower_law_exact.specs.Exactly.{Does, EndsExactly};
ghost use Rattle.gsl_lower_law_exact.specs.OfLawLinked.{AreOnce, MayNest};
ghost use Rattle.gsl_lower_law_exact.specs.Sizes.{IsShortFor};
ghost use Rattle.gsl_owed.specs.Runs.{IsFitting};
ghost use Rattle.gsl_tree.specs.WellTyped.{IsProgram};
ghost use Rattle.gsl_tree.specs.declared.program.Program.{Program};
ghost use Rattle.gsl_valid.specs.Valid.{Valid};
ghost use Rattle.gsl_words.specs.declared.module.Module.{Module};
ghost use Rattle.gsl_words.specs.declared.target.Target.{Target};
ghost use Rattle.gsl_cmd.specs.Meant.{KeepsMeaning, ShaderHasEnded};
ghost use Rattle.gsl_cmd.specs.Verdict.{Accepts, linked_of};
ghost use Rattle.gsl_cmd.specs.declared.compiling.TheConstants.{MAX_SOURCES};

use gsl_given_law::given_inputs_are_typed;

/// The program that sources make together is well typed; in it calls nest at most 64 deep, each leads to a function of the program, and no two functions have one head.
pub fn programs_of_sources_are_linked()
    ensures { (stage : Stage) (sources : List (List ℕ)) (p : Program) → length sources ≤ MAX_SOURCES → linked_of stage sources ≡ Ok p → IsProgram p × MayNest p × AreOnce p }
{}

/// Where the program of the sources has no blocks, the module that they compile to does what the shader does on every input that fits: it ends with an output exactly when the shader does, it strays exactly when the shader does, and it never comes to an instruction that is none.
pub fn compiled_modules_do_as_shaders()
    ensures { (target : Target) (stage : Stage) (sources : List (List ℕ)) (m : Module) → length sources ≤ MAX_SOURCES → (accepts : Accepts target stage sources m) → accepts.linked.blocks ≡ [] → (input : Input) → IsFitting accepts.linked input → Does m accepts.linked input × EndsExactly m accepts.linked input }
{}

/// The valid module that the program of sources is lowered to does what the shader does on every input that fits and that has fewer than 2^32 bytes in each buffer: it ends with an output exactly when the shader does, it strays exactly when the shader does, and it never comes to an instruction that is none.
pub fn lowered_modules_do_as_shaders()
    ensures { (target : Target) (stage : Stage) (sources : List (List ℕ)) (p : Program) (m : Module) → length sources ≤ MAX_SOURCES → linked_of stage sources ≡ Ok p → module_for target p ≡ Some m → Valid m → (input : Input) → IsFitting p input → IsShortFor p input → Does m p input × EndsExactly m p input }
{}

/// What `run` lists is what the shader gives: where a module keeps the meaning of a program, and has ended on the input of a manifest over files of bytes, the shader has ended on that input with the same output.
pub fn runs_list_what_shaders_give()
    ensures { (m : Module) (p : Program) (files : Files) (inputs : Name) (output : Output) → KeepsMeaning m p → HoldBytes files → HasEnded files inputs m output → ShaderHasEnded files inputs p output }
{
    given_inputs_are_typed();
}
