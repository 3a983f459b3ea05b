//! Laws of the definitions: calls that do nothing, whose contracts are the laws.

ghost use Rattle.gsl_base.specs.declared.input.Input.{Input};
ghost use Rattle.gsl_fits_law.specs.Asking.{AsksAlike};
ghost use Rattle.gsl_lower_flow.specs.Programs.{lowered};
ghost use Rattle.gsl_lower_holders.specs.Flow.{Flow, Gives};
ghost use Rattle.gsl_lower_law_bound.specs.OfLawOutside.{HaveOutside};
ghost use Rattle.gsl_machine.specs.Fits as machine_fits;
ghost use Rattle.gsl_meaning.specs.Fits as meaning_fits;
ghost use Rattle.gsl_spv.specs.Finished.{module_of};
ghost use Rattle.gsl_spv.specs.Sections.{empty};
ghost use Rattle.gsl_tree.specs.WellTyped.{IsProgram};
ghost use Rattle.gsl_tree.specs.declared.program.Program.{Program};
ghost use Rattle.gsl_valid.specs.Valid.{Valid};
ghost use Rattle.gsl_words.specs.declared.target.Target.{Target};
ghost use Rattle.std.specs.Prelude.{ℕ, ◌≡◌};

/// The valid module that a program is lowered to asks of an input what the program asks: it has the blocks of the program in their order, each at its set and binding and with the bytes that it needs, its inputs at their locations with the words of their types, its stage, and the size of its work groups.
pub fn lowered_modules_ask_alike()
    ensures { (target : Target) (p : Program) (main : ℕ) (flow : Flow) → IsProgram p → lowered target p (empty p.stage target) ≡ Gives main flow → Valid (module_of flow.sections main p.local_size) → HaveOutside target p main flow → AsksAlike (module_of flow.sections main p.local_size) p }
{}

/// So it refuses the inputs that the program refuses, each with the same first refusal.
pub fn lowered_modules_fit_alike()
    ensures { (target : Target) (p : Program) (main : ℕ) (flow : Flow) → IsProgram p → lowered target p (empty p.stage target) ≡ Gives main flow → Valid (module_of flow.sections main p.local_size) → HaveOutside target p main flow → (input : Input) → machine_fits.fits (module_of flow.sections main p.local_size) input ≡ meaning_fits.fits p input }
{}
