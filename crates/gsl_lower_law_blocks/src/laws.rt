//! Laws of the definitions: calls that do nothing, whose contracts are the laws.

ghost use Rattle.std.specs.Prelude.{◌≡◌, ◌<◌, ◌≤◌, ◌+◌, ◌++◌, ◌∷◌, ℕ, Some, true, length, map, List};
ghost use Rattle.std.specs.List.{AllByRecursion};
ghost use Rattle.gsl_base.specs.declared.input.Input.{Input};
ghost use Rattle.gsl_layout.specs.Layout.{Group, IsLayout, Layout, Leaf as Run, Parts, need, offset_at, part_at};
ghost use Rattle.gsl_words.specs.declared.module.Module.{Module};
ghost use Rattle.gsl_values.specs.declared.value.Value.{Value};
ghost use Rattle.gsl_tree.specs.Operations.{value_at};
ghost use Rattle.gsl_views.specs.Paths.{Leads};
ghost use Rattle.gsl_views.specs.Seen.{seen};
ghost use Rattle.gsl_views.specs.Viewed.{IsArray, elements};
ghost use Rattle.gsl_meaning.specs.Blocks.{value_of};
ghost use Rattle.gsl_valid.specs.Kinds.{shape_of};
ghost use Rattle.gsl_valid.specs.Types.{defined_as};
ghost use Rattle.gsl_machine.specs.Memory.{bytes_of, counting, parts_as};
ghost use Rattle.gsl_machine.specs.State.{InBlock, Outcome, Pointer, State};
ghost use Rattle.gsl_owed.specs.Types.{lies};
ghost use Rattle.gsl_lower_places.specs.Reached.{is_block_class};
ghost use Rattle.gsl_lower_places.specs.Reading.{number_in};
ghost use Rattle.gsl_lower_places.specs.declared.reached.Part.TheVariants.{Fixed};
ghost use Rattle.gsl_lower_leaves.specs.declared.leaf.Leaf.{Leaf};
ghost use Rattle.gsl_lower_law_copies.specs.OfLawLeaves.{HasLeaves};
ghost use Rattle.gsl_lower_law_places.specs.Leading.{HoldsValue, StraysFrom};
ghost use Rattle.gsl_lower_law_copies.specs.Copying.{LeadsIn, LieEach, Place, ShowEach, put_leaves};
ghost use Rattle.gsl_lower_law_blocks.specs.Placing.{ArePlaced, with_leaves};

/// Where a type lies by a layout, the words of a path lead to the offset that the layout has for it, with a type that lies by the layout of
/// that part.
pub fn layouts_lead()
    ensures { (m : Module) (input : Input) (variable size at type : ℕ) (l part : Layout) (path : List ℕ) (offset : ℕ) → lies m l type ≡ true → Leads size l at path part offset → (pointee : ℕ) × (lies m part pointee ≡ true) × LeadsIn m input variable size (InBlock variable at type) path (InBlock variable offset pointee) }
{}

/// What is loaded where a path leads to a run of components is what is seen there through the layout; and that is the part at the path of all
/// that is seen.
pub fn leaves_are_seen()
    ensures loaded { (m : Module) (input : Input) (state : State) (variable offset pointee components : ℕ) (bytes : List ℕ) → lies m (Run components) pointee ≡ true → bytes_of m input state variable ≡ Some bytes → HoldsValue m input state (InBlock variable offset pointee) (value_of (seen (Run components) offset bytes)) }
    ensures seen { (l part : Layout) (at offset : ℕ) (path bytes : List ℕ) → Leads (length bytes) l at path part offset → value_at (value_of (seen l at bytes)) path ≡ value_of (seen part offset bytes) }
{}

/// An index that is not below the count of elements of an array strays, whatever stands behind it.
pub fn elements_out_of_bounds_stray()
    ensures { (m : Module) (input : Input) (state : State) (variable at type : ℕ) (l part : Layout) (bytes path more : List ℕ) (offset index : ℕ) → lies m l type ≡ true → bytes_of m input state variable ≡ Some bytes → Leads (length bytes) l at path part offset → IsArray part → elements part offset (length bytes) ≤ index → StraysFrom m input state (InBlock variable at type) (path ++ index ∷ more) }
{}

/// An array of a block has as many elements as its layout has in so many bytes; that is the length of a runtime array.
pub fn arrays_are_counted()
    ensures parts { (m : Module) (size offset type : ℕ) (l : Layout) → lies m l type ≡ true → IsArray l → parts_as m size offset type (shape_of (defined_as m type)) ≡ elements l offset size }
    ensures length { (m : Module) (input : Input) (state : State) (variable at type member all offset : ℕ) (members : Parts) (l : Layout) (bytes : List ℕ) (go : ℕ → Outcome) → lies m (Group members all) type ≡ true → bytes_of m input state variable ≡ Some bytes → part_at members member ≡ Some l → offset_at members member ≡ Some offset → IsArray l → counting m input state (InBlock variable at type) member go ≡ go (elements l (at + offset) (length bytes)) }
{}

/// Where a type lies by a layout, leaves whose numbers lead in the layout to runs lie at places, at the offsets of the layout, and what is seen of
/// them through the layout is what lies there.
pub fn leaves_lie()
    ensures { (m : Module) (input : Input) (variable size at type : ℕ) (from : Pointer) (words : List ℕ) (l : Layout) (leaves : List Leaf) → lies m l type ≡ true → LeadsIn m input variable size from words (InBlock variable at type) → AllByRecursion (λ (one : Leaf). (offset : ℕ) × (one.path ≡ map Fixed (map number_in one.path)) × Leads size l at (map number_in one.path) (Run one.shape.1) offset) leaves → (places : List Place) × LieEach m input variable size from words leaves places × ArePlaced size l at leaves places × ((class : ℕ) (bytes : List ℕ) → is_block_class class ≡ true → length bytes ≡ size → AllByRecursion (λ byte. byte < 256) bytes → ShowEach m class bytes (value_of (seen l at bytes)) leaves places) }
{}

/// Where the leaves of a value were put at places of a layout, what is seen through it is the same with those leaves, as they lie in a class.
pub fn leaves_put_are_seen()
    ensures { (class size at : ℕ) (l : Layout) (v : Value) (leaves : List Leaf) (places : List Place) (bytes : List ℕ) → IsLayout l → length bytes ≡ size → at + need l ≤ size → ArePlaced size l at leaves places → HasLeaves v leaves → value_of (seen l at (put_leaves class v leaves places bytes)) ≡ with_leaves class (value_of (seen l at bytes)) v leaves }
{}
