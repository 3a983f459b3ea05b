//! A law of the definitions: a call that does nothing, whose contract is the law.

ghost use Rattle.std.specs.Prelude.{◌≡◌, ℕ, List, Ok, None, Contains};
ghost use Rattle.gsl_host.specs.declared.target.Target.{Target};
ghost use Rattle.gsl_host.specs.Outside.{Files, Name};
ghost use Rattle.gsl_words.specs.declared.module.Module.{Module};
ghost use Rattle.gsl_valid.specs.Valid.{Valid};
ghost use Rattle.gsl_exec.specs.Owed.{IsOwed, IsTaken, Owed};

use gsl_manifest::one_reading;
use gsl_sound::valid_modules_are_never_stuck;

/// Over any files there is one that is owed, and no other.
pub fn one_owed()
    ensures some { (file inputs : Name) (files : Files) → (owed : Owed) × IsOwed file inputs files owed }
    ensures one { (file inputs : Name) (files : Files) (a b : Owed) → IsOwed file inputs files a → IsOwed file inputs files b → a ≡ b }
{
    one_reading();
    valid_modules_are_never_stuck();
}

/// Of a valid module something is owed behind the bytes of any manifest, which reaches for all that was reached for before, and nothing else is.
pub fn one_owed_of_valid()
    ensures some { (m : Module) → Valid m → (files : Files) (text : List ℕ) (targets : List Target) →
        (owed : Owed) × IsTaken files text targets owed (Ok m) None × ((target : Target) → Contains targets target → Contains owed.targets target) }
    ensures one { (m : Module) (files : Files) (text : List ℕ) (targets : List Target) (a b : Owed) →
        IsTaken files text targets a (Ok m) None → IsTaken files text targets b (Ok m) None → a ≡ b }
{
    one_reading();
    valid_modules_are_never_stuck();
}
