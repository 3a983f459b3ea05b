//! Laws of the definitions: calls that do nothing, whose contracts are the laws.

ghost use Rattle.std.specs.Prelude.{◌≡◌, ◌+◌, ◌∷◌, List, ℕ, Some, drop, set, slice_get, take, true};
ghost use Rattle.gsl_base.specs.declared.input.Buffer.{Buffer};
ghost use Rattle.gsl_base.specs.declared.input.Input.{Input};
ghost use Rattle.gsl_frames.specs.Frames.{place};
ghost use Rattle.gsl_leaves.specs.Leaves.{leaves};
ghost use Rattle.gsl_machine.specs.State.{State, Whole, give};
ghost use Rattle.gsl_memory_law.specs.Typed.{place_by};
ghost use Rattle.gsl_region.specs.Flat.{flat};
ghost use Rattle.gsl_region.specs.Showing.{with_words};
ghost use Rattle.gsl_shown.specs.Shown.{Shows, Standing};
ghost use Rattle.gsl_shown_memory.specs.Passing.{passes};
ghost use Rattle.gsl_sound.specs.Sound.{Good};
ghost use Rattle.gsl_sound_types.specs.Typed.{LeadsTo, Typed, types_in};
ghost use Rattle.gsl_sound_values.specs.Shaped.{is_shaped};
ghost use Rattle.gsl_tree.specs.Operations.{value_at, with_value_at};
ghost use Rattle.gsl_valid.specs.Ids as defining;
ghost use Rattle.gsl_valid.specs.Instruction.{read};
ghost use Rattle.gsl_valid.specs.Kinds.{Gives, kind};
ghost use Rattle.gsl_valid.specs.Placed.{Placed};
ghost use Rattle.gsl_valid.specs.Valid.{Valid};
ghost use Rattle.gsl_values.specs.declared.value.Value.{Value};
ghost use Rattle.gsl_words.specs.declared.module.Module.{Module};

/// In a valid module, where an instruction of a block gives nothing and stores a value of its type in a part of a variable, its words at the part's place show
/// the state behind it. It is so of a store, and of a variable that has its initialiser again.
pub fn stores_are_shown()
    ensures { (m : Module) (f : Standing) (callers : List Standing) (slots words : List ℕ) (buffers : List Buffer) (choices : List ℕ) (state : State) (p : Placed) (more : List Placed) (number : ℕ) (path : List ℕ) (part : ℕ) (old new : Value) → Valid m → Typed m state → Shows m f callers slots words buffers choices state → state.rest ≡ p ∷ more → passes (kind (read p.instr)) ≡ true → LeadsTo m (types_in m state) number path part → slice_get state.variables number ≡ Some old → is_shaped m part new ≡ true → Shows m (record f { at = f.at + 1 }) callers slots (with_words words (place_by m (types_in m state) number path) (flat new)) buffers choices (record state { rest = more; variables = set state.variables number (with_value_at old path new) }) }
{}

/// Where an instruction of a block gives nothing and changes the buffers, the same words show the state behind it.
pub fn writes_are_shown()
    ensures { (m : Module) (f : Standing) (callers : List Standing) (slots words : List ℕ) (buffers later : List Buffer) (choices : List ℕ) (state : State) (p : Placed) (more : List Placed) → Shows m f callers slots words buffers choices state → state.rest ≡ p ∷ more → passes (kind (read p.instr)) ≡ true → Shows m (record f { at = f.at + 1 }) callers slots words later choices (record state { rest = more; buffers = later }) }
{}

/// In a valid module, where an instruction gives an id what is loaded from a part of a variable, the words at the part's place, as many as its type tells,
/// show the state behind it at the id's place.
pub fn parts_are_loaded()
    ensures { (m : Module) (input : Input) (f : Standing) (callers : List Standing) (slots words : List ℕ) (buffers : List Buffer) (choices : List ℕ) (state : State) (p : Placed) (more : List Placed) (number : ℕ) (path : List ℕ) (id part : ℕ) (v : Value) → Valid m → Good m input state → Typed m state → Shows m f callers slots words buffers choices state → state.rest ≡ p ∷ more → kind (read p.instr) ≡ Gives part → defining.result (read p.instr) ≡ Some id → LeadsTo m (types_in m state) number path part → slice_get state.variables number ≡ Some v → Shows m (record f { at = f.at + 1 }) callers (with_words slots (f.slots + place m id) (take (leaves m part) (drop (place_by m (types_in m state) number path) words))) words buffers choices (record state { rest = more; ids = give state.ids id (Whole (value_at v path)) }) }
{}
