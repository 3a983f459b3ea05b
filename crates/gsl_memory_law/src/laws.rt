//! Laws of the definitions: calls that do nothing, whose contracts are the laws.

ghost use Rattle.std.specs.Prelude.{◌≡◌, ◌+◌, ◌++◌, ◌∷◌, ◌≤◌, [], List, ℕ, Some, drop, length, set, slice_get, take, true};
ghost use Rattle.std.specs.List.{sum_by};
ghost use Rattle.gsl_leaves.specs.Leaves.{ahead, leaves};
ghost use Rattle.gsl_memory_law.specs.Typed.{HaveTypes, place_by};
ghost use Rattle.gsl_region.specs.Flat.{flat, flat_all};
ghost use Rattle.gsl_region.specs.Places.{place};
ghost use Rattle.gsl_region.specs.Showing.{Shows, with_words};
ghost use Rattle.gsl_sound_values.specs.Shaped.{is_shaped};
ghost use Rattle.gsl_tree.specs.Operations.{value_at, with_value_at};
ghost use Rattle.gsl_valid.specs.Kinds.{shape_of};
ghost use Rattle.gsl_valid.specs.OperandRules.{part_of_at, part_within};
ghost use Rattle.gsl_valid.specs.Types.{defined_as};
ghost use Rattle.gsl_valid.specs.Valid.{Valid};
ghost use Rattle.gsl_values.specs.declared.value.Value.{Value};
ghost use Rattle.gsl_words.specs.declared.module.Module.{Module};

/// Variables of the shapes of their types have as many words as these tell; in a valid module a part stands where the types tell.
pub fn variables_stand_by_types()
    ensures all { (m : Module) (types : List ℕ) (variables : List Value) → HaveTypes m types variables → length (flat_all variables) ≡ sum_by (leaves m) types }
    ensures parts { (m : Module) (types path : List ℕ) (variables : List Value) (number type part : ℕ) → Valid m → HaveTypes m types variables → slice_get types number ≡ Some type → part_within m (Some type) path ≡ Some part → place variables number path ≡ place_by m types number path }
{}

/// A chain that goes on by an index leads to the part of that number of the type to which it led, as many words further as the type tells.
pub fn chains_add_up()
    ensures place { (m : Module) (types path : List ℕ) (number type part index : ℕ) → slice_get types number ≡ Some type → part_within m (Some type) path ≡ Some part → place_by m types number (path ++ index ∷ []) ≡ place_by m types number path + ahead m part index }
    ensures part { (m : Module) (path : List ℕ) (type part index : ℕ) → part_within m (Some type) path ≡ Some part → part_within m (Some type) (path ++ index ∷ []) ≡ part_of_at m index (shape_of (defined_as m part)) }
{}

/// In a valid module what is loaded from a part of a variable stands in the words at the place that the types tell, all of it, and has the shape of
/// the part's type.
pub fn parts_are_loaded()
    ensures within { (m : Module) (words types path : List ℕ) (variables : List Value) (number type part : ℕ) → Valid m → Shows words variables → HaveTypes m types variables → slice_get types number ≡ Some type → part_within m (Some type) path ≡ Some part → place_by m types number path + leaves m part ≤ length words }
    ensures words { (m : Module) (words types path : List ℕ) (variables : List Value) (number type part : ℕ) (v : Value) → Valid m → Shows words variables → HaveTypes m types variables → slice_get types number ≡ Some type → part_within m (Some type) path ≡ Some part → slice_get variables number ≡ Some v → take (leaves m part) (drop (place_by m types number path) words) ≡ flat (value_at v path) }
    ensures shape { (m : Module) (types path : List ℕ) (variables : List Value) (number type part : ℕ) (v : Value) → Valid m → HaveTypes m types variables → slice_get types number ≡ Some type → part_within m (Some type) path ≡ Some part → slice_get variables number ≡ Some v → is_shaped m part (value_at v path) ≡ true }
{}

/// In a valid module, with the words of a value of the part's type at the place that the types tell, the words show the variables as they are behind
/// the store, and these have the shapes of the same types.
pub fn parts_are_stored()
    ensures words { (m : Module) (words types path : List ℕ) (variables : List Value) (number type part : ℕ) (v new : Value) → Valid m → Shows words variables → HaveTypes m types variables → slice_get types number ≡ Some type → part_within m (Some type) path ≡ Some part → slice_get variables number ≡ Some v → is_shaped m part new ≡ true → Shows (with_words words (place_by m types number path) (flat new)) (set variables number (with_value_at v path new)) }
    ensures shapes { (m : Module) (types path : List ℕ) (variables : List Value) (number type part : ℕ) (v new : Value) → Valid m → HaveTypes m types variables → slice_get types number ≡ Some type → part_within m (Some type) path ≡ Some part → slice_get variables number ≡ Some v → is_shaped m part new ≡ true → HaveTypes m types (set variables number (with_value_at v path new)) }
{}

/// A function that begins puts variables of its own behind the others, and one that ends takes them away.
pub fn functions_begin_and_end()
    ensures begin { (m : Module) (types more : List ℕ) (variables new : List Value) → HaveTypes m types variables → HaveTypes m more new → HaveTypes m (types ++ more) (variables ++ new) }
    ensures end { (m : Module) (types : List ℕ) (variables : List Value) (count : ℕ) → HaveTypes m types variables → HaveTypes m (take count types) (take count variables) }
    ensures same { (m : Module) (types more path : List ℕ) (number type : ℕ) → slice_get types number ≡ Some type → place_by m (types ++ more) number path ≡ place_by m types number path }
{}
