//! Laws of the definitions: calls that do nothing, whose contracts are the laws.

ghost use Rattle.std.specs.Prelude.{◌≡◌, ◌+◌, ℕ};
ghost use Rattle.gsl_base.specs.declared.input.Input.{Input};
ghost use Rattle.gsl_words.specs.declared.module.Module.{Module};
ghost use Rattle.gsl_machine.specs.Laws.{IsOver};
ghost use Rattle.gsl_machine.specs.Machine.{after};

/// A run that ended, strayed or is stuck after some instructions comes to the same after more of them: there is one outcome at most.
pub fn what_is_over_stays_over()
    ensures { (m : Module) (input : Input) (count more : ℕ) → IsOver (after m count input) → after m (count + more) input ≡ after m count input }
{}
