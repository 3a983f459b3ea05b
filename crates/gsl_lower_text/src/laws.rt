//! Laws of the definitions: calls that do nothing, whose contracts are the laws.

ghost use Rattle.std.specs.Prelude.{◌≡◌, ℕ, List, Some};
ghost use Rattle.gsl_words.specs.declared.module.Module.{Module};
ghost use Rattle.gsl_valid.specs.Kinds.{Begins, kind};
ghost use Rattle.gsl_valid.specs.Placed.{Placed};
ghost use Rattle.gsl_valid.specs.Types.{defined_as};
ghost use Rattle.gsl_valid.specs.Valid.{Valid};
ghost use Rattle.gsl_machine.specs.Functions.{function_at, own_ids};
ghost use Rattle.gsl_machine.specs.Interfaces.{globals};
ghost use Rattle.gsl_machine.specs.State.{Held, Ids};
ghost use Rattle.gsl_spv.specs.Finished.{module_of};
ghost use Rattle.gsl_spv.specs.Sections.{Sections};
ghost use Rattle.gsl_lower_law.specs.Values.{Text};
ghost use Rattle.gsl_lower_text.specs.Written.{Lasts, Written};

/// The module that a builder gives has what its sections hold.
pub fn finished_modules_are_written()
    ensures { (s : Sections) (main : ℕ) (local_size : List ℕ) → Written (module_of s main local_size) s }
{}

/// In a valid module types are what the sections declare, and a constant's id stands for its value while a function runs.
pub fn what_is_written_is_said()
    ensures { (m : Module) (s : Sections) (own : Ids) → Valid m → Written m s → Lasts m own → Text m s own }
{}

/// As a function of a valid module begins, its ids last.
pub fn functions_last()
    ensures { (m : Module) (id returned own function_type : ℕ) (body : List Placed) (held : List Held) (count : ℕ) → Valid m → kind (defined_as m id) ≡ Begins returned own function_type → function_at m id ≡ Some body → Lasts m (own_ids (globals m) body held count) }
{}
