//! Laws of the definitions: calls that do nothing, whose contracts are the laws.

ghost use Rattle.std.specs.Prelude.{◌≡◌, ◌≤◌, ℕ, nat_lt, true, [], length, Ok, Some};
ghost use Rattle.gsl_base.specs.declared.input.Input.{Input};
ghost use Rattle.gsl_words.specs.declared.module.Module.{Module};
ghost use Rattle.gsl_valid.specs.Kinds.{shape_of};
ghost use Rattle.gsl_valid.specs.Types.{defined_as};
ghost use Rattle.gsl_valid.specs.Valid.{Valid};
ghost use Rattle.gsl_machine.specs.Fits.{fits};
ghost use Rattle.gsl_machine.specs.Interfaces.{globals, value_variables};
ghost use Rattle.gsl_machine.specs.Memory.{part_as, parts_as};
ghost use Rattle.gsl_machine.specs.State.{InBlock};
ghost use Rattle.gsl_sound_ids.specs.Held.{Agrees, HaveBytes, StandsInBlocks};

/// In a valid module constants and the module's variables stand for what is of their types, and those of blocks for their starts.
pub fn what_lasts_agrees()
    ensures { (m : Module) (count : ℕ) → Valid m → length (value_variables m) ≤ count → Agrees m count [] [] (globals m) }
{}

/// A type that stands in a block of a valid module has each of its parts at an offset, and of a type that stands in blocks too.
pub fn parts_of_blocks_are_found()
    ensures { (m : Module) (variable offset type index size : ℕ) → Valid m → StandsInBlocks m type → nat_lt index (parts_as m size offset type (shape_of (defined_as m type))) ≡ true → (at pointee : ℕ) × (part_as m variable offset type index (shape_of (defined_as m type)) ≡ Some (InBlock variable at pointee)) × StandsInBlocks m pointee }
{}

/// On an input that fits a valid module each of its blocks has its bytes.
pub fn blocks_have_bytes()
    ensures { (m : Module) (input : Input) → Valid m → fits m input ≡ Ok tt → HaveBytes m input input.buffers }
{}
