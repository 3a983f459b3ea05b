//! Laws of the definitions: calls that do nothing, whose contracts are the laws.

ghost use Rattle.std.specs.Prelude.{◌≡◌, ◌≤◌, ◌++◌, ◌∷◌, [], ℕ, Option, Some, None, map, length, List, slice_get};
ghost use Rattle.gsl_base.specs.declared.input.Input.{Input};
ghost use Rattle.gsl_words.specs.declared.module.Module.{Module};
ghost use Rattle.gsl_values.specs.declared.value.Value.{Value};
ghost use Rattle.gsl_tree.specs.Operations.{value_at};
ghost use Rattle.gsl_tree.specs.Shapes.{Shape};
ghost use Rattle.gsl_valid.specs.Kinds.{shape_of};
ghost use Rattle.gsl_valid.specs.Types.{defined_as};
ghost use Rattle.gsl_machine.specs.Memory.{bytes_of, parts_as};
ghost use Rattle.gsl_machine.specs.State.{InBlock, InVariable, Pointer, Points, State};
ghost use Rattle.gsl_spv.specs.Sections.{Sections};
ghost use Rattle.gsl_lower_places.specs.Pointed.{pointed};
ghost use Rattle.gsl_lower_places.specs.Reached.{stored_shape};
ghost use Rattle.gsl_lower_places.specs.Reading.{number_in, read};
ghost use Rattle.gsl_lower_places.specs.Writing.{stored};
ghost use Rattle.gsl_lower_places.specs.declared.reached.Base.TheVariants as base;
ghost use Rattle.gsl_lower_places.specs.declared.reached.Part.{Part};
ghost use Rattle.gsl_lower_places.specs.declared.reached.Picked.{Picked};
ghost use Rattle.gsl_lower_law.specs.Computing.{Does};
ghost use Rattle.gsl_lower_law.specs.Straying.{Strays};
ghost use Rattle.gsl_lower_law.specs.Values.{IsOf, Stands};
ghost use Rattle.gsl_lower_law_places.specs.Components.{Chooses, HoldsComponents, Picks};
ghost use Rattle.gsl_lower_law_places.specs.Leading.{LeadsTo, NumberEach, StraysFrom};
ghost use Rattle.gsl_lower_law_places.specs.Storing.{AreStored};
ghost use Rattle.gsl_lower_law_picks.specs.Outside.{CanPick, HasPart, LacksPart, PicksOutside};
ghost use Rattle.gsl_lower_law_picks.specs.Serving.{IsAt, Serves};

/// In a variable, words lead to the part that its value has there, and stray where it has none.
pub fn variables_lead()
    ensures leads { (m : Module) (input : Input) (state : State) (number : ℕ) (path words : List ℕ) (old : Value) → slice_get state.variables number ≡ Some old → HasPart (value_at old path) words → LeadsTo m input state (InVariable number path) words (InVariable number (path ++ words)) }
    ensures strays { (m : Module) (input : Input) (state : State) (number : ℕ) (path words : List ℕ) (old : Value) → slice_get state.variables number ≡ Some old → LacksPart (value_at old path) words → StraysFrom m input state (InVariable number path) words }
{}

/// In the bytes of a block, an index strays that is not below the count of parts there.
pub fn blocks_stray()
    ensures { (m : Module) (input : Input) (state : State) (variable offset pointee word : ℕ) (bytes : List ℕ) → bytes_of m input state variable ≡ Some bytes → parts_as m (length bytes) offset pointee (shape_of (defined_as m pointee)) ≤ word → StraysFrom m input state (InBlock variable offset pointee) (word ∷ []) }
{}

/// What is picked by a word that is out of bounds strays where it is read, in a variable, a block or a value that is in no variable; and so
/// does what is picked of that to which an index out of bounds leads.
pub fn reads_out_of_bounds_stray()
    ensures variable { (m : Module) (input : Input) (whole : Sections) (id class : ℕ) (shape : Shape) (parts : List Part) (p : Picked) (word : ℕ) (words : List ℕ) (from to : Pointer) (state : State) (before : Sections) → state.ids id ≡ Some (Points from) → NumberEach state.ids parts words → LeadsTo m input state from words to → StraysFrom m input state to (word ∷ []) → PicksOutside state.ids p word → Strays m input whole state before (read shape (record { base = base.Variable id class; path = parts; picked = Some p })) }
    ensures value { (m : Module) (input : Input) (whole : Sections) (id type : ℕ) (shape : Shape) (parts : List Part) (p : Picked) (word : ℕ) (v : Value) (state : State) (before : Sections) → Stands state.ids id v → IsOf p.shape (value_at v (map number_in parts)) → PicksOutside state.ids p word → Strays m input whole state before (read shape (record { base = base.Value id type; path = parts; picked = Some p })) }
    ensures path { (m : Module) (input : Input) (whole : Sections) (id class : ℕ) (shape : Shape) (parts : List Part) (p : Picked) (by : Option ℕ) (words : List ℕ) (from : Pointer) (state : State) (before : Sections) → state.ids id ≡ Some (Points from) → NumberEach state.ids parts words → StraysFrom m input state from words → Chooses state.ids p.by by → CanPick p → Strays m input whole state before (read shape (record { base = base.Variable id class; path = parts; picked = Some p })) }
{}

/// So does what is stored there.
pub fn stores_out_of_bounds_stray()
    ensures component { (m : Module) (input : Input) (whole : Sections) (id class : ℕ) (shape : Shape) (parts : List Part) (p : Picked) (word : ℕ) (words : List ℕ) (from to : Pointer) (w : Value) (value : ℕ) (state : State) (before : Sections) → state.ids id ≡ Some (Points from) → NumberEach state.ids parts words → LeadsTo m input state from words to → StraysFrom m input state to (word ∷ []) → PicksOutside state.ids p word → length p.positions ≡ 1 → IsOf (p.shape.0, length p.positions) w → Stands state.ids value w → Strays m input whole state before (stored shape (record { base = base.Variable id class; path = parts; picked = Some p }) value) }
    ensures path { (m : Module) (input : Input) (whole : Sections) (id class : ℕ) (shape : Shape) (parts : List Part) (p : Picked) (by : Option ℕ) (words : List ℕ) (from : Pointer) (w : Value) (value : ℕ) (state : State) (before : Sections) → state.ids id ≡ Some (Points from) → NumberEach state.ids parts words → StraysFrom m input state from words → Chooses state.ids p.by by → CanPick p → AreStored by p.positions → length p.positions ≤ p.shape.1 → IsOf (p.shape.0, length p.positions) w → Stands state.ids value w → Strays m input whole state before (stored shape (record { base = base.Variable id class; path = parts; picked = Some p }) value) }
{}

/// One pointer serves what is read and what is then stored, as well as one for each would; without picked components, it is a pointer to the
/// whole.
pub fn pointers_serve()
    ensures picked { (m : Module) (input : Input) (whole : Sections) (id class : ℕ) (shape : Shape) (parts : List Part) (p : Picked) (by : Option ℕ) (words : List ℕ) (from to : Pointer) (v : Value) (state : State) (before : Sections) → state.ids id ≡ Some (Points from) → NumberEach state.ids parts words → LeadsTo m input state from words to → HoldsComponents m input state to v → IsOf (stored_shape class p.shape) v → Picks state.ids p by → AreStored by p.positions → length p.positions ≤ p.shape.1 → Does m input whole (Serves m input whole class p by to) state.choices state before (pointed shape (record { base = base.Variable id class; path = parts; picked = Some p })) }
    ensures all { (m : Module) (input : Input) (whole : Sections) (id class : ℕ) (shape : Shape) (parts : List Part) (words : List ℕ) (from to : Pointer) (state : State) (before : Sections) → state.ids id ≡ Some (Points from) → NumberEach state.ids parts words → LeadsTo m input state from words to → Does m input whole (IsAt class to None) state.choices state before (pointed shape (record { base = base.Variable id class; path = parts; picked = None })) }
{}

/// One pointer strays where what is read or stored would: at a component that is out of bounds, and behind an index out of bounds.
pub fn pointers_out_of_bounds_stray()
    ensures component { (m : Module) (input : Input) (whole : Sections) (id class : ℕ) (shape : Shape) (parts : List Part) (p : Picked) (word : ℕ) (words : List ℕ) (from to : Pointer) (state : State) (before : Sections) → state.ids id ≡ Some (Points from) → NumberEach state.ids parts words → LeadsTo m input state from words to → StraysFrom m input state to (word ∷ []) → PicksOutside state.ids p word → Strays m input whole state before (pointed shape (record { base = base.Variable id class; path = parts; picked = Some p })) }
    ensures path { (m : Module) (input : Input) (whole : Sections) (id class : ℕ) (shape : Shape) (parts : List Part) (p : Picked) (by : Option ℕ) (words : List ℕ) (from : Pointer) (state : State) (before : Sections) → state.ids id ≡ Some (Points from) → NumberEach state.ids parts words → StraysFrom m input state from words → Chooses state.ids p.by by → Strays m input whole state before (pointed shape (record { base = base.Variable id class; path = parts; picked = Some p })) }
    ensures all { (m : Module) (input : Input) (whole : Sections) (id class : ℕ) (shape : Shape) (parts : List Part) (words : List ℕ) (from : Pointer) (state : State) (before : Sections) → state.ids id ≡ Some (Points from) → NumberEach state.ids parts words → StraysFrom m input state from words → Strays m input whole state before (pointed shape (record { base = base.Variable id class; path = parts; picked = None })) }
{}
