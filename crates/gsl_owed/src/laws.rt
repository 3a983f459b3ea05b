//! Laws of the definitions: calls that do nothing, whose contracts are the laws.

ghost use Rattle.gsl_words.specs.declared.module.Module.{Module};
ghost use Rattle.gsl_tree.specs.declared.program.Program.{Program};
ghost use Rattle.gsl_owed.specs.Runs.{EndAlike, Runs};

/// Where a module does what a program does, then from every fitting input on which the shader indexes in bounds the module ends with
/// given outputs exactly when the shader does.
pub fn what_runs_ends_alike()
    ensures { (m : Module) (p : Program) → Runs m p → EndAlike m p }
{}
