//! Laws of the definitions: calls that do nothing, whose contracts are the laws.

ghost use Rattle.std.specs.Prelude.{◌≡◌, ℕ, true, [], Some};
ghost use Rattle.gsl_words.specs.declared.module.Module.{Module};
ghost use Rattle.gsl_valid.specs.EntryRules.{is_main};
ghost use Rattle.gsl_valid.specs.Kinds.{Begins, kind};
ghost use Rattle.gsl_valid.specs.Types.{defined_as};
ghost use Rattle.gsl_valid.specs.Valid.{Valid};
ghost use Rattle.gsl_machine.specs.Machine.{entry_of};
ghost use Rattle.gsl_sound_code.specs.Rules.{KeepAll};
ghost use Rattle.gsl_sound_code.specs.Spots.{IsBody};

/// Each instruction of a valid module keeps the rules where it stands.
pub fn instructions_keep_the_rules()
    ensures { (m : Module) → Valid m → KeepAll m [] m.instrs }
{}

/// A function of a valid module has a body, at whose start code stands in the function, and whose blocks lead to its own labels alone.
pub fn functions_have_bodies()
    ensures { (m : Module) (id returned own function_type : ℕ) → Valid m → kind (defined_as m id) ≡ Begins returned own function_type → IsBody m id returned function_type }
{}

/// A valid module enters a function of no parameters that gives nothing.
pub fn modules_enter_a_function()
    ensures { (m : Module) → Valid m → (function : ℕ) × (entry_of m.instrs ≡ Some function) × (is_main m (defined_as m function) ≡ true) }
{}
