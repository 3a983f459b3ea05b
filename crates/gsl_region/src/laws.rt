//! Laws of the definitions: calls that do nothing, whose contracts are the laws.

ghost use Rattle.std.specs.Prelude.{◌≡◌, ◌+◌, ◌≤◌, ◌++◌, List, ℕ, Some, drop, length, set, slice_get, take};
ghost use Rattle.gsl_region.specs.Flat.{flat, flat_all};
ghost use Rattle.gsl_region.specs.Places.{LeadsIn, in_front, place};
ghost use Rattle.gsl_region.specs.Showing.{Shows, with_words};
ghost use Rattle.gsl_tree.specs.Operations.{value_at, with_value_at};
ghost use Rattle.gsl_values.specs.declared.value.Value.{Value};

/// The words at the place of a part of a variable are those of the part.
pub fn parts_are_read()
    ensures within { (words path : List ℕ) (variables : List Value) (number : ℕ) (v : Value) → Shows words variables → slice_get variables number ≡ Some v → LeadsIn v path → place variables number path + length (flat (value_at v path)) ≤ length words }
    ensures words { (words path : List ℕ) (variables : List Value) (number : ℕ) (v : Value) → Shows words variables → slice_get variables number ≡ Some v → LeadsIn v path → take (length (flat (value_at v path))) (drop (place variables number path) words) ≡ flat (value_at v path) }
{}

/// With as many other words at the place of a part of a variable, the words show the variables with that part alone another.
pub fn parts_are_written()
    ensures { (words path : List ℕ) (variables : List Value) (number : ℕ) (v new : Value) → Shows words variables → slice_get variables number ≡ Some v → LeadsIn v path → length (flat new) ≡ length (flat (value_at v path)) → Shows (with_words words (place variables number path) (flat new)) (set variables number (with_value_at v path new)) }
{}

/// A path that goes on leads where what goes on leads from there, and the words in front add up.
pub fn chains_add_up()
    ensures leads { (path more : List ℕ) (v : Value) → LeadsIn v path → LeadsIn (value_at v path) more → LeadsIn v (path ++ more) }
    ensures value { (path more : List ℕ) (v : Value) → value_at v (path ++ more) ≡ value_at (value_at v path) more }
    ensures front { (path more : List ℕ) (v : Value) → in_front v (path ++ more) ≡ in_front v path + in_front (value_at v path) more }
{}

/// With the words of further variables behind those of all others, the words show these too.
pub fn variables_begin()
    ensures { (words : List ℕ) (variables new : List Value) → Shows words variables → Shows (with_words words (length (flat_all variables)) (flat_all new)) (variables ++ new) }
{}

/// Words that show variables show the first of them.
pub fn variables_end()
    ensures { (words : List ℕ) (variables : List Value) (count : ℕ) → Shows words variables → Shows words (take count variables) }
{}
