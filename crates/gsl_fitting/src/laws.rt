//! Laws of the definitions: calls that do nothing, whose contracts are the laws.

ghost use Rattle.std.specs.Prelude.{◌≡◌, ℕ, [], ◌∷◌};
ghost use Rattle.gsl_words.specs.declared.module.Module.{Module};
ghost use Rattle.gsl_valid.specs.Placed.{Code};
ghost use Rattle.gsl_fitting.specs.Fits.{Behind, Fits, Frame};

/// Behind a block where no run is due there is no more code.
pub fn what_fits_goes_on()
    ensures { (m : Module) (rank : ℕ → ℕ) (f : Frame) (code : Code) → Fits m rank f code (Behind []) → code ≡ [] }
{}
