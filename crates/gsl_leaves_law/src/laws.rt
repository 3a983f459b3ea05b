//! Laws of the definitions: calls that do nothing, whose contracts are the laws.

ghost use Rattle.std.specs.Prelude.{◌≡◌, ◌+◌, ◌≤◌, ◌<◌, List, ℕ, Some, length, replicate, true};
ghost use Rattle.gsl_leaves.specs.Leaves.{leaves, offset, parts_as};
ghost use Rattle.gsl_machine.specs.Constants.{zeros};
ghost use Rattle.gsl_region.specs.Flat.{flat};
ghost use Rattle.gsl_region.specs.Places.{LeadsIn, in_front};
ghost use Rattle.gsl_sound_values.specs.Shaped.{is_shaped};
ghost use Rattle.gsl_tree.specs.Values.{parts_in};
ghost use Rattle.gsl_valid.specs.Kinds.{shape_of};
ghost use Rattle.gsl_valid.specs.OperandRules.{part_of_at, part_within};
ghost use Rattle.gsl_valid.specs.Types.{defined_as};
ghost use Rattle.gsl_valid.specs.Valid.{Valid};
ghost use Rattle.gsl_values.specs.declared.value.Value.{Value};
ghost use Rattle.gsl_words.specs.declared.module.Module.{Module};

/// A value of the shape of a type has as many words as the type tells.
pub fn values_have_their_words()
    ensures { (m : Module) (type : ℕ) (v : Value) → is_shaped m type v ≡ true → length (flat v) ≡ leaves m type }
{}

/// The words of the zeros of a type are as many zeros.
pub fn zeros_are_zero_words()
    ensures { (m : Module) (type : ℕ) → flat (zeros m type) ≡ replicate (leaves m type) 0 }
{}

/// In a valid module a value of the shape of a type has as many parts as the type tells, each of a type of its own; a path of such parts leads to
/// one in the value, and as many words stand in front of it as the types tell.
pub fn parts_stand_by_types()
    ensures counts { (m : Module) (type : ℕ) (v : Value) → Valid m → is_shaped m type v ≡ true → length (parts_in v) ≡ parts_as m (shape_of (defined_as m type)) }
    ensures types { (m : Module) (type number : ℕ) → number < parts_as m (shape_of (defined_as m type)) → (part : ℕ) × (part_of_at m number (shape_of (defined_as m type)) ≡ Some part) }
    ensures leads { (m : Module) (type part : ℕ) (path : List ℕ) (v : Value) → Valid m → part_within m (Some type) path ≡ Some part → is_shaped m type v ≡ true → LeadsIn v path }
    ensures front { (m : Module) (type part : ℕ) (path : List ℕ) (v : Value) → Valid m → part_within m (Some type) path ≡ Some part → is_shaped m type v ≡ true → in_front v path ≡ offset m (Some type) path }
    ensures within { (m : Module) (type part : ℕ) (path : List ℕ) (v : Value) → Valid m → part_within m (Some type) path ≡ Some part → is_shaped m type v ≡ true → offset m (Some type) path + leaves m part ≤ leaves m type }
{}
