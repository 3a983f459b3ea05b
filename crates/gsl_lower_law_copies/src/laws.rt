//! Laws of the definitions: calls that do nothing, whose contracts are the laws.

ghost use Rattle.std.specs.Prelude.{◌≡◌, ◌≤◌, [], ℕ, Some, true, false, length, set, List, slice_get};
ghost use Rattle.gsl_base.specs.declared.input.Input.{Input};
ghost use Rattle.gsl_types.specs.Known.{AreStructs, IsSound};
ghost use Rattle.gsl_types.specs.declared.ty.StructType.{StructType};
ghost use Rattle.gsl_types.specs.declared.ty.Ty.{Ty};
ghost use Rattle.gsl_words.specs.declared.module.Module.{Module};
ghost use Rattle.gsl_values.specs.declared.value.Value.{Value};
ghost use Rattle.gsl_tree.specs.Values.{is_value_of};
ghost use Rattle.gsl_meaning.specs.Accesses.{told};
ghost use Rattle.gsl_machine.specs.Memory.{bytes_of, is_push};
ghost use Rattle.gsl_machine.specs.State.{InVariable, Pointer, Points, State};
ghost use Rattle.gsl_spv.specs.Sections.{Sections};
ghost use Rattle.gsl_lower_places.specs.declared.reached.Part.{Part};
ghost use Rattle.gsl_lower_leaves.specs.Copies.{read_whole, store_whole};
ghost use Rattle.gsl_lower_leaves.specs.Leaves.{leaves_of};
ghost use Rattle.gsl_lower_leaves.specs.declared.leaf.Leaf.{Leaf};
ghost use Rattle.gsl_lower_law.specs.Computing.{Acts};
ghost use Rattle.gsl_lower_law.specs.Straying.{Strays};
ghost use Rattle.gsl_lower_law.specs.Values.{Stands};
ghost use Rattle.gsl_lower_law_leaves.specs.Equal.{HasLeaves};
ghost use Rattle.gsl_lower_law_places.specs.Leading.{NumberEach, StraysFrom};
ghost use Rattle.gsl_lower_law_places.specs.Storing.{buffers_with};
ghost use Rattle.gsl_lower_law_copies.specs.Copying.{Fits, LieEach, Place, ShowEach, filled, put_leaves};
ghost use Rattle.gsl_lower_law_copies.specs.Worded.{has_words};

/// What a block holds at leaves is read by way of a variable of the function, which has those leaves then.
pub fn wholes_are_read()
    ensures { (m : Module) (input : Input) (whole : Sections) (block class : ℕ) (parts : List Part) (holder type : ℕ) (leaves : List Leaf) (words : List ℕ) (from : Pointer) (variable number : ℕ) (bytes : List ℕ) (places : List Place) (old v : Value) (state : State) (before : Sections) → state.ids block ≡ Some (Points from) → NumberEach state.ids parts words → bytes_of m input state variable ≡ Some bytes → LieEach m input variable (length bytes) from words leaves places → ShowEach m class bytes v leaves places → state.ids holder ≡ Some (Points (InVariable number [])) → slice_get state.variables number ≡ Some old → Fits old v leaves → Acts m input whole (λ id ids. Stands ids id (filled old v leaves)) (record { choices = state.choices; variables = set state.variables number (filled old v leaves); buffers = state.buffers }) state before (read_whole block class parts holder type leaves) }
{}

/// The words of the leaves of a value are stored in a block, each at its place, and nothing else of its bytes changes.
pub fn wholes_are_stored()
    ensures { (m : Module) (input : Input) (whole : Sections) (block class : ℕ) (parts : List Part) (value : ℕ) (leaves : List Leaf) (words : List ℕ) (from : Pointer) (variable : ℕ) (bytes : List ℕ) (places : List Place) (v : Value) (state : State) (before : Sections) → state.ids block ≡ Some (Points from) → NumberEach state.ids parts words → is_push m variable ≡ false → bytes_of m input state variable ≡ Some bytes → LieEach m input variable (length bytes) from words leaves places → Stands state.ids value v → HasLeaves v leaves → Acts m input whole (λ given ids. Unit {0}) (record { choices = state.choices; variables = state.variables; buffers = buffers_with m state variable (put_leaves class v leaves places bytes) }) state before (store_whole block class parts value leaves) }
{}

/// Where an index is out of bounds on the way to what is copied, the copy strays at its first leaf.
pub fn wholes_out_of_bounds_stray()
    ensures read { (m : Module) (input : Input) (whole : Sections) (block class : ℕ) (parts : List Part) (holder type : ℕ) (leaves : List Leaf) (words : List ℕ) (from : Pointer) (variable size : ℕ) (places : List Place) (state : State) (before : Sections) → state.ids block ≡ Some (Points from) → NumberEach state.ids parts words → StraysFrom m input state from words → 1 ≤ length leaves → LieEach m input variable size from words leaves places → Strays m input whole state before (read_whole block class parts holder type leaves) }
    ensures store { (m : Module) (input : Input) (whole : Sections) (block class : ℕ) (parts : List Part) (value : ℕ) (leaves : List Leaf) (words : List ℕ) (from : Pointer) (variable size : ℕ) (places : List Place) (v : Value) (state : State) (before : Sections) → state.ids block ≡ Some (Points from) → NumberEach state.ids parts words → StraysFrom m input state from words → 1 ≤ length leaves → LieEach m input variable size from words leaves places → Stands state.ids value v → HasLeaves v leaves → Strays m input whole state before (store_whole block class parts value leaves) }
{}

/// A value of a type that is filled with the leaves of another, whose words lay in a block, is what those words tell; and it has a place for
/// each leaf.
pub fn fillings_are_told()
    ensures { (structs : List StructType) (ty : Ty) (old v : Value) → AreStructs structs → IsSound (length structs) ty → is_value_of structs ty old ≡ true → has_words structs ty v ≡ true → (filled old v (leaves_of structs ty) ≡ told structs ty v) × Fits old v (leaves_of structs ty) }
{}
