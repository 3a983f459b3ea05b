//! Laws of the definitions: calls that do nothing, whose contracts are the laws.

ghost use Rattle.gsl_base.specs.declared.input.Input.{Input};
ghost use Rattle.gsl_fits_law.specs.Asking.{AsksAlike};
ghost use Rattle.gsl_machine.specs.Fits as machine_fits;
ghost use Rattle.gsl_meaning.specs.Fits as meaning_fits;
ghost use Rattle.gsl_tree.specs.WellTyped.{IsProgram};
ghost use Rattle.gsl_tree.specs.declared.program.Program.{Program};
ghost use Rattle.gsl_words.specs.declared.module.Module.{Module};
ghost use Rattle.std.specs.Prelude.{◌≡◌};

/// A module that asks of an input what a well typed program asks of it refuses the same inputs, with the same first refusal: the module goes by set, binding and location in order, the program by its blocks, and by each location there may be.
pub fn modules_that_ask_alike_fit_alike()
    ensures { (m : Module) (p : Program) → IsProgram p → AsksAlike m p → (input : Input) → machine_fits.fits m input ≡ meaning_fits.fits p input }
{}
