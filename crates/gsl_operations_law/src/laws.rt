//! Laws of the definitions: calls that do nothing, whose contracts are the laws.

ghost use Rattle.std.specs.Prelude.{◌≡◌, ◌++◌, ◌∷◌, [], Bool, List, ℕ, Some, drop, length, map, slice_get, slice_index, take, true, false};
ghost use Rattle.std.specs.List.{list_all};
ghost use Rattle.gsl_machine.specs.Operations.{Operator, binary, constructed, shuffled};
ghost use Rattle.gsl_operations_law.specs.Lanes.{is_lanes};
ghost use Rattle.gsl_region.specs.Flat.{flat, flat_all};
ghost use Rattle.gsl_region.specs.Places.{LeadsIn, in_front};
ghost use Rattle.gsl_region.specs.Showing.{with_words};
ghost use Rattle.gsl_sound_values.specs.Shaped.{is_shaped};
ghost use Rattle.gsl_tree.specs.Operations.{binary_words, builtin_value, builtin_words, unary_value, value_at, with_value_at};
ghost use Rattle.gsl_tree.specs.Values.{components_in, of_components, parts_in};
ghost use Rattle.gsl_valid.specs.Types.{Lanes, lanes_of};
ghost use Rattle.gsl_valid.specs.Valid.{Valid};
ghost use Rattle.gsl_values.specs.Operators.{unary_word};
ghost use Rattle.gsl_values.specs.declared.function.Builtin.{Builtin};
ghost use Rattle.gsl_values.specs.declared.op.UnaryOp.{UnaryOp};
ghost use Rattle.gsl_values.specs.declared.value.Value.{Value};
ghost use Rattle.gsl_words.specs.declared.module.Module.{Module};

/// The words of a scalar or vector are its components; what is made of words has these words; in a valid module a value of the shape of a type
/// that has components is one.
pub fn lanes_are_words()
    ensures components { (v : Value) → is_lanes v ≡ true → components_in v ≡ flat v }
    ensures words { (words : List ℕ) → flat (of_components words) ≡ words }
    ensures made { (words : List ℕ) → is_lanes (of_components words) ≡ true }
    ensures shaped { (m : Module) (type : ℕ) (lanes : Lanes) (v : Value) → Valid m → lanes_of m type ≡ Some lanes → is_shaped m type v ≡ true → is_lanes v ≡ true }
{}

/// What operations give on scalars and vectors are the words that their words give, with the choices that are drawn.
pub fn operations_give_words()
    ensures unary { (op : UnaryOp) (v : Value) → is_lanes v ≡ true → flat (unary_value op v) ≡ map (unary_word op) (flat v) }
    ensures binary { (operator : Operator) (a b : Value) (choices : List ℕ) → is_lanes a ≡ true → is_lanes b ≡ true → flat (binary operator a b choices).0 ≡ (binary_words operator.0 operator.1 (flat a) (flat b) choices).0 }
    ensures drawn { (operator : Operator) (a b : Value) (choices : List ℕ) → is_lanes a ≡ true → is_lanes b ≡ true → (binary operator a b choices).1 ≡ (binary_words operator.0 operator.1 (flat a) (flat b) choices).1 }
    ensures builtin { (which : Builtin) (signed : Bool) (args : List Value) (choices : List ℕ) → list_all is_lanes args ≡ true → builtin_value which signed args choices ≡ builtin_words which signed (map flat args) choices }
{}

/// The words of a part stand among those of the whole; with another part of as many words the others are as before; what is put together has the
/// words of its parts in a row, and what is picked or shuffled the words at its positions.
pub fn parts_are_words()
    ensures extracts { (v : Value) (path : List ℕ) → LeadsIn v path → flat (value_at v path) ≡ take (length (flat (value_at v path))) (drop (in_front v path) (flat v)) }
    ensures inserts { (v new : Value) (path : List ℕ) → LeadsIn v path → length (flat new) ≡ length (flat (value_at v path)) → flat (with_value_at v path new) ≡ with_words (flat v) (in_front v path) (flat new) }
    ensures composes { (vs : List Value) → flat (constructed false vs) ≡ flat_all vs }
    ensures lines_up { (vs : List Value) → list_all is_lanes vs ≡ true → flat (constructed true vs) ≡ flat_all vs }
    ensures shuffles { (a b : Value) (positions : List ℕ) → is_lanes a ≡ true → is_lanes b ≡ true → flat (shuffled a b positions) ≡ map (slice_index (flat a ++ flat b)) positions }
    ensures picks { (v part : Value) (index : ℕ) → is_lanes v ≡ true → slice_get (parts_in v) index ≡ Some part → flat part ≡ slice_index (flat v) index ∷ [] }
{}
