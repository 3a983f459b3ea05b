//! Laws of the definitions: calls that do nothing, whose contracts are the laws.

ghost use Rattle.std.specs.Prelude.{ℕ, List};
ghost use Rattle.gsl_words.specs.Instructions.{HasFile};
ghost use Rattle.gsl_valid.specs.EntryRules.{entry};
ghost use Rattle.gsl_valid.specs.Valid.{Valid};
ghost use Rattle.gsl_spv.specs.Finished.{module_of};
ghost use Rattle.gsl_spv.specs.Sections.{Sections};
ghost use Rattle.gsl_fitting_sections.specs.Sections.{AreSound, Unbroken};

/// The entry point is as it has to be, with its mode and its interface (V9).
pub fn sections_have_an_entry_point()
    ensures { Unbroken entry }
{}

/// The module of sound sections is valid, if it has a file.
pub fn sections_make_valid_modules()
    ensures { (s : Sections) (main : ℕ) (local_size : List ℕ) → AreSound s main local_size → HasFile (module_of s main local_size) → Valid (module_of s main local_size) }
{}
