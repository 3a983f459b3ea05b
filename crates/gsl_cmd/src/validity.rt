//! What holds of the module of each program: calls that do nothing, whose contracts are the laws.

ghost use Rattle.gsl_valid.specs.Portable.{Portable};
ghost use Rattle.gsl_valid.specs.Valid.{Valid};
ghost use Rattle.gsl_form.specs.declared.program.Program.{Program};
ghost use Rattle.gsl_form.specs.Form.{IsProgram};
ghost use Rattle.gsl_cmd.specs.Lowering.{module_of};
ghost use Rattle.gsl_cmd.specs.Places.{Places};
ghost use Rattle.gsl_cmd.specs.Weight.{IsSmall};

/// A program's module keeps the rules V1 to V18.
pub fn module_is_valid()
    ensures { (p : Program) → IsProgram p → Valid (module_of p) }
{}

/// A program's module is one that other consumers of SPIR-V take.
pub fn module_is_portable()
    ensures { (p : Program) → IsProgram p → Portable (module_of p) }
{}

/// A program's module has its buffer, its members and their names where they belong.
pub fn module_is_placed()
    ensures { (p : Program) → IsProgram p → Places (module_of p) p }
{}

/// A program's module has few ids and words for the program's weight.
pub fn module_is_small()
    ensures { (p : Program) → IsProgram p → IsSmall (module_of p) p }
{}
