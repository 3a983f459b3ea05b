//! Laws of the definitions: calls that do nothing, whose contracts are the laws.

ghost use Rattle.std.specs.Prelude.{◌≡◌, ℕ, Bool, List, ◌∷◌, length, slice_get, Some, true};
ghost use Rattle.gsl_words.specs.declared.module.Module.{Module};
ghost use Rattle.gsl_values.specs.declared.value.Value.{Value};
ghost use Rattle.gsl_tree.specs.Operations.{value_at, with_value_at};
ghost use Rattle.gsl_tree.specs.Values.{of_components, parts_in};
ghost use Rattle.gsl_valid.specs.ConstantRules.{is_whole};
ghost use Rattle.gsl_valid.specs.ExtendedRules.{Extended, fit_as};
ghost use Rattle.gsl_valid.specs.Kinds.{Value as Fixed, constant_is, shape_of};
ghost use Rattle.gsl_valid.specs.OperandRules.{component_in, is_built, is_unary_of, is_vector, part_within, size_in};
ghost use Rattle.gsl_valid.specs.Types.{Scalar, defined_as, has_lanes, is_ints, is_type, lanes_of, same_size};
ghost use Rattle.gsl_valid.specs.Valid.{Valid};
ghost use Rattle.gsl_machine.specs.Constants.{constant, zeros};
ghost use Rattle.gsl_machine.specs.Memory.{words_at};
ghost use Rattle.gsl_machine.specs.Operations.{Operator, binary, constructed, extend, extracted, inserted, select, shuffled, unary};
ghost use Rattle.gsl_sound_values.specs.Shaped.{HaveShapes, is_shaped};

/// In a valid module the zeros of a type without an array without length have its shape.
pub fn zeros_have_their_shape()
    ensures { (m : Module) (type : ℕ) → Valid m → is_whole m type ≡ true → is_shaped m type (zeros m type) ≡ true }
{}

/// The constants of a valid module have the shapes of their types.
pub fn constants_have_their_shapes()
    ensures { (m : Module) (id type : ℕ) (value : Fixed) → Valid m → constant_is (defined_as m id) ≡ Some (type, value) → is_shaped m type (constant m id) ≡ true }
{}

/// On values of the shapes of its operands' types, which the rules of a valid module relate to that of the result, an operation gives a value
/// of the shape of its result.
pub fn operations_give_their_shapes()
    ensures one { (m : Module) (code type other : ℕ) (v : Value) → Valid m → is_unary_of m code type other ≡ true → is_shaped m other v ≡ true → is_shaped m type (unary code v) ≡ true }
    ensures two { (m : Module) (type a b : ℕ) (operator : Operator) (x y : Value) (choices : List ℕ) → Valid m → same_size (lanes_of m type) (lanes_of m a) ≡ true → same_size (lanes_of m a) (lanes_of m b) ≡ true → same_size (lanes_of m b) (lanes_of m a) ≡ true → is_shaped m a x ≡ true → is_shaped m b y ≡ true → is_shaped m type (binary operator x y choices).0 ≡ true }
    ensures selects { (m : Module) (type condition : ℕ) (c a b : Value) → Valid m → same_size (lanes_of m type) (lanes_of m condition) ≡ true → is_shaped m type b ≡ true → is_shaped m type (select c a b) ≡ true }
    ensures inserts { (m : Module) (type : ℕ) (base insert offset count : Value) (choices : List ℕ) → Valid m → is_ints m type ≡ true → is_shaped m type base ≡ true → is_shaped m type (inserted base insert offset count choices).0 ≡ true }
    ensures extracts { (m : Module) (type code : ℕ) (base offset count : Value) (choices : List ℕ) → Valid m → is_ints m type ≡ true → is_shaped m type base ≡ true → is_shaped m type (extracted code base offset count choices).0 ≡ true }
    ensures extends { (m : Module) (e : Extended) (type other number : ℕ) (operands : List ℕ) (v : Value) (vs : List Value) → Valid m → fit_as m e type operands other ≡ true → is_shaped m other v ≡ true → is_shaped m type (extend number (v ∷ vs)) ≡ true }
    ensures shuffles { (m : Module) (test : Scalar → Bool) (type : ℕ) (a b : Value) (places : List ℕ) → Valid m → has_lanes test (lanes_of m type) ≡ true → length places ≡ size_in (lanes_of m type) → is_shaped m type (shuffled a b places) ≡ true }
    ensures constructs { (m : Module) (type : ℕ) (ids : List ℕ) (vs : List Value) → Valid m → HaveShapes m ids vs → is_built m ids (shape_of (defined_as m type)) ≡ true → is_shaped m type (constructed (is_vector (shape_of (defined_as m type))) vs) ≡ true }
{}

/// What places lead to in a value, a component of a vector and what is read from a block have the shapes of their types; a value with another
/// part of its shape has the shape that it had.
pub fn parts_have_their_shapes()
    ensures leads { (m : Module) (type part : ℕ) (path : List ℕ) (v : Value) → Valid m → part_within m (Some type) path ≡ Some part → is_shaped m type v ≡ true → is_shaped m part (value_at v path) ≡ true }
    ensures puts { (m : Module) (type part : ℕ) (path : List ℕ) (v new : Value) → Valid m → part_within m (Some type) path ≡ Some part → is_shaped m type v ≡ true → is_shaped m part new ≡ true → is_shaped m type (with_value_at v path new) ≡ true }
    ensures picks { (m : Module) (type vector index : ℕ) (v c : Value) → Valid m → is_type type (component_in (shape_of (defined_as m vector))) ≡ true → is_shaped m vector v ≡ true → slice_get (parts_in v) index ≡ Some c → is_shaped m type c ≡ true }
    ensures reads { (m : Module) (test : Scalar → Bool) (type offset : ℕ) (bytes : List ℕ) → Valid m → has_lanes test (lanes_of m type) ≡ true → is_shaped m type (of_components (words_at m offset type bytes)) ≡ true }
{}
