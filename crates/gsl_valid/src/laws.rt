//! Laws of validity.

ghost use Rattle.std.specs.Prelude.{◌≡◌, ◌↔◌, ℕ, Some};
ghost use Rattle.gsl_words.specs.declared.module.Module.{Module};
ghost use Rattle.gsl_words.specs.Instructions.{HasFile};
ghost use Rattle.gsl_valid.specs.Valid.{Valid, KeepsEach, IsFirstOf, broken, rules};

/// A module is valid exactly where it has a file and keeps each of the rules.
pub fn valid_keeps_each_rule()
    ensures { (m : Module) → Valid m ↔ (HasFile m × KeepsEach m) }
{}

/// What a module breaks is the first of the rules that gives a place in it, with that place.
pub fn broken_is_the_first_rule()
    ensures { (m : Module) (rule place : ℕ) → (broken m ≡ Some (rule, place)) ↔ IsFirstOf rules m rule place }
{}
