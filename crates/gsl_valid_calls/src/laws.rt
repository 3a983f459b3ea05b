//! Laws of calls.

ghost use Rattle.std.specs.Prelude.{◌≡◌, ◌↔◌, ℕ, true};
ghost use Rattle.gsl_words.specs.declared.module.Module.{Module};
ghost use Rattle.gsl_valid.specs.CallRules.{leads_to};
ghost use Rattle.gsl_valid_calls.specs.Closure.{Reaches};

/// A function is found to reach another, in as many calls as the module has instructions, exactly where it is in the closure of "calls".
pub fn reached_in_the_closure()
    ensures { (m : Module) (from id : ℕ) → (leads_to m from id ≡ true) ↔ Reaches m.instrs from id }
{}
