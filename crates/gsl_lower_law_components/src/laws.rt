//! Laws of the definitions: calls that do nothing, whose contracts are the laws.

ghost use Rattle.std.specs.Prelude.{◌≡◌, ◌≤◌, ℕ, Option, Some, false, length, List};
ghost use Rattle.gsl_base.specs.declared.input.Input.{Input};
ghost use Rattle.gsl_words.specs.declared.module.Module.{Module};
ghost use Rattle.gsl_values.specs.declared.value.Value.{Value};
ghost use Rattle.gsl_tree.specs.Shapes.{Shape};
ghost use Rattle.gsl_tree.specs.Values.{components_in};
ghost use Rattle.gsl_machine.specs.Memory.{bytes_of, is_push};
ghost use Rattle.gsl_machine.specs.State.{InBlock, Pointer, Points, State};
ghost use Rattle.gsl_spv.specs.Sections.{Sections};
ghost use Rattle.gsl_lower_places.specs.Pointed.{pointed};
ghost use Rattle.gsl_lower_places.specs.Reached.{stored_shape};
ghost use Rattle.gsl_lower_places.specs.Writing.{stored};
ghost use Rattle.gsl_lower_places.specs.declared.reached.Base.TheVariants as base;
ghost use Rattle.gsl_lower_places.specs.declared.reached.Part.{Part};
ghost use Rattle.gsl_lower_places.specs.declared.reached.Picked.{Picked};
ghost use Rattle.gsl_lower_law.specs.Computing.{Acts, Does};
ghost use Rattle.gsl_lower_law.specs.Operands.{converted_value};
ghost use Rattle.gsl_lower_law.specs.Values.{IsOf, Stands};
ghost use Rattle.gsl_lower_law_picks.specs.OfLawPlaces.{HoldsComponents, Picks};
ghost use Rattle.gsl_lower_law_picks.specs.OfLawPlaces.{LeadsTo, NumberEach};
ghost use Rattle.gsl_lower_law_picks.specs.OfLawPlaces.{AreStored, IsVectorType, buffers_with, goes_to};
ghost use Rattle.gsl_lower_law_components.specs.Putting.{put_components};
ghost use Rattle.gsl_lower_law_components.specs.Serving.{Puts};

/// In a vector that lies in a block the words of the components that are picked are stored, by positions or by a word that is in bounds, and all
/// other bytes stay.
pub fn blocks_are_stored_in_part()
    ensures { (m : Module) (input : Input) (whole : Sections) (id class : ℕ) (shape : Shape) (parts : List Part) (p : Picked) (by : Option ℕ) (words : List ℕ) (from : Pointer) (variable offset pointee component : ℕ) (bytes : List ℕ) (w : Value) (value : ℕ) (state : State) (before : Sections) → 2 ≤ p.shape.1 → state.ids id ≡ Some (Points from) → NumberEach state.ids parts words → LeadsTo m input state from words (InBlock variable offset pointee) → is_push m variable ≡ false → bytes_of m input state variable ≡ Some bytes → IsVectorType m pointee component p.shape.1 → IsOf (p.shape.0, length p.positions) w → Stands state.ids value w → Picks state.ids p by → AreStored by p.positions → length p.positions ≤ p.shape.1 → Acts m input whole (λ given ids. Unit {0}) (record { choices = state.choices; variables = state.variables; buffers = buffers_with m state variable (put_components offset (goes_to by p.positions) (components_in (converted_value (stored_shape class (p.shape.0, length p.positions)).0 w)) bytes) }) state before (stored shape (record { base = base.Variable id class; path = parts; picked = Some p }) value) }
{}

/// One pointer into a block serves what is stored there, as well as one for each store would.
pub fn pointers_put()
    ensures { (m : Module) (input : Input) (whole : Sections) (id class : ℕ) (shape : Shape) (parts : List Part) (p : Picked) (by : Option ℕ) (words : List ℕ) (from : Pointer) (variable offset pointee component : ℕ) (bytes : List ℕ) (v : Value) (state : State) (before : Sections) → state.ids id ≡ Some (Points from) → NumberEach state.ids parts words → LeadsTo m input state from words (InBlock variable offset pointee) → is_push m variable ≡ false → bytes_of m input state variable ≡ Some bytes → (2 ≤ p.shape.1 → IsVectorType m pointee component p.shape.1) → HoldsComponents m input state (InBlock variable offset pointee) v → IsOf (stored_shape class p.shape) v → Picks state.ids p by → AreStored by p.positions → length p.positions ≤ p.shape.1 → Does m input whole (Puts m input whole class p by variable offset) state.choices state before (pointed shape (record { base = base.Variable id class; path = parts; picked = Some p })) }
{}
