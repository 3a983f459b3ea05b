//! Laws of the definitions: calls that do nothing, whose contracts are the laws.

ghost use Rattle.std.specs.Prelude.{◌≡◌, ℕ, List, Result};
ghost use Rattle.gsl_base.specs.Ranges.{AreBytes};
ghost use Rattle.gsl_words.specs.declared.fault.WordFault.{WordFault};
ghost use Rattle.gsl_words.specs.declared.module.Module.{Module};
ghost use Rattle.gsl_words.specs.Faults.{Judges};

/// Bytes are the file of one module, or have one fault, and not both.
pub fn one_judgement()
    ensures some { (bytes : List ℕ) → AreBytes bytes → (verdict : Result Module WordFault) × Judges bytes verdict }
    ensures one { (bytes : List ℕ) (v w : Result Module WordFault) → Judges bytes v → Judges bytes w → v ≡ w }
{}
