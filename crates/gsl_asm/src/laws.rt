//! Laws of the definitions: calls that do nothing, whose contracts are the laws.

ghost use Rattle.std.specs.Prelude.{◌≡◌, ◌⊎◌, ℕ, List, Result, Ok, Err};
ghost use Rattle.gsl_words.specs.declared.module.Module.{Module};
ghost use Rattle.gsl_words.specs.Faults.{FitsTypes};
ghost use Rattle.gsl_words.specs.Instructions.{HasFile};
ghost use Rattle.gsl_asm.specs.declared.fault.AsmFault.{AsmFault};
ghost use Rattle.gsl_asm.specs.declared.fault.AsmFault.TheVariants.{Memory};
ghost use Rattle.gsl_asm.specs.Shown.{shown};
ghost use Rattle.gsl_asm.specs.Texts.{AreModule, IsTextOf, IsWrong, Answers};

/// A text is one module's, or it is wrong in one line, and not both.
pub fn one_meaning()
    ensures one { (bytes : List ℕ) (m k : Module) → IsTextOf bytes m → IsTextOf bytes k → m ≡ k }
    ensures one_line { (lines : List (List ℕ)) (n k : ℕ) → IsWrong lines n → IsWrong lines k → n ≡ k }
    ensures never_both { (lines : List (List ℕ)) (m : Module) (n : ℕ) → AreModule lines m → IsWrong lines n → ⊥ }
{}

/// What is shown of a module is a text of it, so that whoever answers for that text answers the module, unless memory was wanting.
pub fn shown_and_read()
    ensures text { (m : Module) → HasFile m → FitsTypes m → IsTextOf (shown m) m }
    ensures back { (m : Module) (given : Result Module AsmFault) → HasFile m → FitsTypes m → Answers given (shown m) → (given ≡ Ok m) ⊎ (given ≡ Err Memory) }
{}
