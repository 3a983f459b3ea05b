//! Laws of the definitions: calls that do nothing, whose contracts are the laws.

ghost use Rattle.std.specs.Prelude.{◌≡◌, ◌≤◌, ℕ, Option, Some, false, map, length, set, List, slice_get};
ghost use Rattle.gsl_base.specs.declared.input.Buffer.{Buffer};
ghost use Rattle.gsl_base.specs.declared.input.Input.{Input};
ghost use Rattle.gsl_words.specs.declared.module.Module.{Module};
ghost use Rattle.gsl_values.specs.declared.value.Value.{Value};
ghost use Rattle.gsl_tree.specs.Operations.{value_at, with_value_at};
ghost use Rattle.gsl_tree.specs.Shapes.{Shape};
ghost use Rattle.gsl_tree.specs.Values.{components_in, of_components};
ghost use Rattle.gsl_views.specs.Buffers.{put_words};
ghost use Rattle.gsl_lower_law_constructors.specs.OfMachine.{bytes_of, words_at};
ghost use Rattle.gsl_lower_law_constructors.specs.OfMachine.{InBlock, InVariable, Pointer, Points, State};
ghost use Rattle.gsl_spv.specs.Sections.{Sections};
ghost use Rattle.gsl_lower_places.specs.Reached.{is_block_class, stored_shape};
ghost use Rattle.gsl_lower_places.specs.Reading.{extracted_shape, loaded, number_in, pointer, read};
ghost use Rattle.gsl_lower_places.specs.Writing.{put_at, stored};
ghost use Rattle.gsl_lower_places.specs.declared.reached.Base.TheVariants as base;
ghost use Rattle.gsl_lower_places.specs.declared.reached.Part.{Part};
ghost use Rattle.gsl_lower_places.specs.declared.reached.Picked.{Picked};
ghost use Rattle.gsl_lower_law_constructors.specs.OfLaw.{Acts, Computes, Does};
ghost use Rattle.gsl_lower_law_constructors.specs.OfLaw.{converted_value};
ghost use Rattle.gsl_lower_law_constructors.specs.OfLaw.{Strays};
ghost use Rattle.gsl_lower_law_constructors.specs.OfLaw.{IsOf, Stands};
ghost use Rattle.gsl_lower_law_places.specs.Components.{HoldsComponents, Picks, picks_of};
ghost use Rattle.gsl_lower_law_places.specs.Leading.{HoldsValue, LeadsTo, NumberEach, StraysFrom};
ghost use Rattle.gsl_lower_law_places.specs.Storing.{AreStored, IsVectorType, Stores, buffers_with, goes_to, with_components};

/// Where the parts of a variable are in bounds, the id that is given stands for a pointer to where they lead.
pub fn pointers_lead()
    ensures { (m : Module) (input : Input) (whole : Sections) (id class pointee : ℕ) (parts : List Part) (words : List ℕ) (from to : Pointer) (state : State) (before : Sections) → state.ids id ≡ Some (Points from) → NumberEach state.ids parts words → LeadsTo m input state from words to → Does m input whole (λ given ids. ids given ≡ Some (Points to)) state.choices state before (pointer id class pointee parts) }
{}

/// A scalar or vector is loaded from where the parts of a variable lead; a truth value of a block is a number there, and anything but zero is true.
pub fn loads_compute()
    ensures { (m : Module) (input : Input) (whole : Sections) (id class : ℕ) (shape : Shape) (parts : List Part) (words : List ℕ) (from to : Pointer) (v : Value) (state : State) (before : Sections) → state.ids id ≡ Some (Points from) → NumberEach state.ids parts words → LeadsTo m input state from words to → HoldsValue m input state to v → IsOf (stored_shape class shape) v → Computes m input whole (converted_value shape.0 v, state.choices) state before (loaded id class shape parts) }
{}

/// The part of a value to which known numbers lead.
pub fn extracts_compute()
    ensures { (m : Module) (input : Input) (whole : Sections) (id : ℕ) (shape : Shape) (parts : List Part) (v : Value) (state : State) (before : Sections) → Stands state.ids id v → Computes m input whole (value_at v (map number_in parts), state.choices) state before (extracted_shape id shape parts) }
{}

/// What is picked of a scalar or vector in a variable, by positions or by a word that is in bounds.
pub fn variables_are_read()
    ensures { (m : Module) (input : Input) (whole : Sections) (id class : ℕ) (shape : Shape) (parts : List Part) (p : Picked) (by : Option ℕ) (words : List ℕ) (from to : Pointer) (v : Value) (state : State) (before : Sections) → state.ids id ≡ Some (Points from) → NumberEach state.ids parts words → LeadsTo m input state from words to → HoldsComponents m input state to v → IsOf (stored_shape class p.shape) v → Picks state.ids p by → Computes m input whole (picks_of (converted_value p.shape.0 v) by p.positions, state.choices) state before (read shape (record { base = base.Variable id class; path = parts; picked = Some p })) }
{}

/// What is picked of a scalar or vector in a value that is in no variable, by positions or by a word that is in bounds.
pub fn values_are_read()
    ensures { (m : Module) (input : Input) (whole : Sections) (id type : ℕ) (shape : Shape) (parts : List Part) (p : Picked) (by : Option ℕ) (v : Value) (state : State) (before : Sections) → Stands state.ids id v → IsOf p.shape (value_at v (map number_in parts)) → Picks state.ids p by → Computes m input whole (picks_of (value_at v (map number_in parts)) by p.positions, state.choices) state before (read shape (record { base = base.Value id type; path = parts; picked = Some p })) }
{}

/// A scalar or vector is stored where the parts of a variable lead; a truth value of a block is a number there.
pub fn stores_leave()
    ensures { (m : Module) (input : Input) (whole : Sections) (id class : ℕ) (shape : Shape) (parts : List Part) (value : ℕ) (words : List ℕ) (from to : Pointer) (v : Value) (variables : List Value) (buffers : List Buffer) (state : State) (before : Sections) → state.ids id ≡ Some (Points from) → NumberEach state.ids parts words → LeadsTo m input state from words to → IsOf shape v → Stands state.ids value v → Stores m input state to (converted_value (stored_shape class shape).0 v) variables buffers → Acts m input whole (λ given ids. Unit {0}) (record { choices = state.choices; variables = variables; buffers = buffers }) state before (put_at id class shape parts value) }
{}

/// A pointer into a variable that holds a value leads to what is there, and to each component of a vector.
pub fn variables_hold_components()
    ensures { (m : Module) (input : Input) (state : State) (number : ℕ) (path : List ℕ) (old v : Value) (shape : Shape) → slice_get state.variables number ≡ Some old → value_at old path ≡ v → IsOf shape v → HoldsComponents m input state (InVariable number path) v }
{}

/// In a variable that holds a value the components that are picked are stored, by positions or by a word that is in bounds, and the others stay.
pub fn variables_are_stored()
    ensures { (m : Module) (input : Input) (whole : Sections) (id class : ℕ) (shape : Shape) (parts : List Part) (p : Picked) (by : Option ℕ) (words : List ℕ) (from : Pointer) (number : ℕ) (path : List ℕ) (old v w : Value) (value : ℕ) (state : State) (before : Sections) → is_block_class class ≡ false → state.ids id ≡ Some (Points from) → NumberEach state.ids parts words → LeadsTo m input state from words (InVariable number path) → slice_get state.variables number ≡ Some old → value_at old path ≡ v → IsOf p.shape v → IsOf (p.shape.0, length p.positions) w → Stands state.ids value w → Picks state.ids p by → AreStored by p.positions → length p.positions ≤ p.shape.1 → Acts m input whole (λ given ids. Unit {0}) (record { choices = state.choices; variables = set state.variables number (with_value_at old path (with_components v (goes_to by p.positions) w)); buffers = state.buffers }) state before (stored shape (record { base = base.Variable id class; path = parts; picked = Some p }) value) }
{}

/// A pointer into the bytes of a block leads to the scalar or vector that lies there, and to each component of a vector.
pub fn blocks_hold_components()
    ensures { (m : Module) (input : Input) (state : State) (variable offset pointee : ℕ) (bytes : List ℕ) (component count : ℕ) → bytes_of m input state variable ≡ Some bytes → IsVectorType m pointee component count → HoldsComponents m input state (InBlock variable offset pointee) (of_components (words_at m offset pointee bytes)) }
{}

/// A store into the bytes of a block leaves the words there, and the variables as they were.
pub fn blocks_are_stored()
    ensures { (m : Module) (input : Input) (state : State) (variable offset pointee : ℕ) (bytes : List ℕ) (v : Value) → bytes_of m input state variable ≡ Some bytes → Stores m input state (InBlock variable offset pointee) v state.variables (buffers_with m state variable (put_words offset (components_in v) bytes)) }
{}

/// Where an index is out of bounds, a pointer, what is loaded from there and what is stored there stray.
pub fn indexes_out_of_bounds_stray()
    ensures pointer { (m : Module) (input : Input) (whole : Sections) (id class pointee : ℕ) (parts : List Part) (words : List ℕ) (from : Pointer) (state : State) (before : Sections) → state.ids id ≡ Some (Points from) → NumberEach state.ids parts words → StraysFrom m input state from words → Strays m input whole state before (pointer id class pointee parts) }
    ensures load { (m : Module) (input : Input) (whole : Sections) (id class : ℕ) (shape : Shape) (parts : List Part) (words : List ℕ) (from : Pointer) (state : State) (before : Sections) → state.ids id ≡ Some (Points from) → NumberEach state.ids parts words → StraysFrom m input state from words → Strays m input whole state before (loaded id class shape parts) }
    ensures store { (m : Module) (input : Input) (whole : Sections) (id class : ℕ) (shape : Shape) (parts : List Part) (value : ℕ) (words : List ℕ) (from : Pointer) (v : Value) (state : State) (before : Sections) → state.ids id ≡ Some (Points from) → NumberEach state.ids parts words → StraysFrom m input state from words → IsOf shape v → Stands state.ids value v → Strays m input whole state before (put_at id class shape parts value) }
{}
