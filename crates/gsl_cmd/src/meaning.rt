//! Laws of the meanings: calls that do nothing, whose contracts are the laws.

ghost use Rattle.std.specs.Prelude.{◌≡◌, ℕ, List, Ok};
ghost use Rattle.gsl_base.specs.declared.stage.Stage.{Stage};
ghost use Rattle.gsl_words.specs.Bytes.{bytes_of};
ghost use Rattle.gsl_words.specs.declared.module.Module.{Module};
ghost use Rattle.gsl_words.specs.declared.target.Target.{Target};
ghost use Rattle.gsl_valid.specs.Valid.{Valid};
ghost use Rattle.gsl_form.specs.declared.program.Program.{Program};
ghost use Rattle.gsl_form.specs.Form.{IsProgram};
ghost use Rattle.gsl_cmd.specs.Lowering.{module_of};
ghost use Rattle.gsl_cmd.specs.Carries.{Runs, EndAlike};
ghost use Rattle.gsl_cmd.specs.Places.{Places};
ghost use Rattle.gsl_cmd.specs.Verdict.{Accepts, AreOfForm, Compiles};

/// The module of each program does what the program does.
pub fn module_runs()
    ensures { (p : Program) → IsProgram p → Runs (module_of p) p }
{}

/// From every fitting input on which the shader indexes in bounds, the module ends with given outputs
/// exactly when the shader does: for every module that does what a program does, for that of a program of the form,
/// and for the one whose bytes compiling gives where the sources make such a program, which is placed besides. It is valid in any case.
pub fn headline()
    ensures carried { (m : Module) (p : Program) → Runs m p → EndAlike m p }
    ensures own { (p : Program) → IsProgram p → EndAlike (module_of p) p }
    ensures compiled { (target : Target) (stage : Stage) (sources : List (List ℕ)) (bytes : List ℕ) → Compiles target stage sources (Ok bytes) →
        (m : Module) × Accepts target stage sources m × (bytes ≡ bytes_of m) × Valid m
        × ((p : Program) → AreOfForm target stage sources p → Places m p × EndAlike m p) }
{}
