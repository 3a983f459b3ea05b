//! Laws of the definitions: calls that do nothing, whose contracts are the laws.

ghost use Rattle.std.specs.Prelude.{◌≡◌, ◌+◌, ◌∷◌, List, ℕ, Some, length};
ghost use Rattle.gsl_base.specs.declared.input.Buffer.{Buffer};
ghost use Rattle.gsl_base.specs.declared.input.Input.{Input};
ghost use Rattle.gsl_frames.specs.Frames.{held_words, place};
ghost use Rattle.gsl_machine.specs.Functions.{from_label};
ghost use Rattle.gsl_machine.specs.State.{Held, State, give};
ghost use Rattle.gsl_machine.specs.Steps.{in_new_block};
ghost use Rattle.gsl_positions.specs.Positions.{left};
ghost use Rattle.gsl_region.specs.Showing.{with_words};
ghost use Rattle.gsl_shown.specs.Shown.{Shows, Standing, held_as};
ghost use Rattle.gsl_sound.specs.Sound.{Good};
ghost use Rattle.gsl_sound_types.specs.Typed.{IsOfType, types_in};
ghost use Rattle.gsl_valid.specs.Ids as defining;
ghost use Rattle.gsl_valid.specs.Instruction.{read};
ghost use Rattle.gsl_valid.specs.Kinds.{Gives, Merges, Opens, kind};
ghost use Rattle.gsl_valid.specs.Placed.{Placed};
ghost use Rattle.gsl_valid.specs.Valid.{Valid};
ghost use Rattle.gsl_words.specs.declared.module.Module.{Module};

/// In a valid module what an id of a type stands for has as many words as the type tells.
pub fn held_words_are_counted()
    ensures { (m : Module) (types : List ℕ) (type : ℕ) (held : Held) → Valid m → IsOfType m types type held → length (held_as m types held) ≡ held_words m type }
{}

/// In a valid module, where an instruction gives an id of its block something of as many words as its type tells, these words at the id's place among the
/// slots of its function show the state behind it, whatever choices are left there.
pub fn values_are_shown()
    ensures { (m : Module) (input : Input) (f : Standing) (callers : List Standing) (slots words : List ℕ) (buffers : List Buffer) (choices later : List ℕ) (state : State) (p : Placed) (more : List Placed) (id type : ℕ) (held : Held) → Valid m → Good m input state → Shows m f callers slots words buffers choices state → state.rest ≡ p ∷ more → kind (read p.instr) ≡ Gives type → defining.result (read p.instr) ≡ Some id → length (held_as m (types_in m state) held) ≡ held_words m type → Shows m (record f { at = f.at + 1 }) callers (with_words slots (f.slots + place m id) (held_as m (types_in m state) held)) words buffers later (record state { rest = more; ids = give state.ids id held; choices = later }) }
{}

/// Where a block begins, the same words show the state behind the label, in which ids stand for what lasts for the function.
pub fn blocks_are_shown()
    ensures { (m : Module) (f : Standing) (callers : List Standing) (slots words : List ℕ) (buffers : List Buffer) (choices : List ℕ) (state : State) (p : Placed) (more : List Placed) → Shows m f callers slots words buffers choices state → state.rest ≡ p ∷ more → kind (read p.instr) ≡ Opens → Shows m (record f { at = f.at + 1 }) callers slots words buffers choices (in_new_block (record state { rest = more })) }
{}

/// The same words show the state behind a merge.
pub fn merges_are_passed()
    ensures { (m : Module) (f : Standing) (callers : List Standing) (slots words : List ℕ) (buffers : List Buffer) (choices : List ℕ) (state : State) (p : Placed) (more : List Placed) → Shows m f callers slots words buffers choices state → state.rest ≡ p ∷ more → kind (read p.instr) ≡ Merges → Shows m (record f { at = f.at + 1 }) callers slots words buffers choices (record state { rest = more }) }
{}

/// In a valid module, where a branch leads to a label of the function, the same words show the state at the label, in which ids stand for what lasts for the
/// function.
pub fn branches_are_shown()
    ensures { (m : Module) (input : Input) (f : Standing) (callers : List Standing) (slots words : List ℕ) (buffers : List Buffer) (choices : List ℕ) (state : State) (label at : ℕ) → Valid m → Good m input state → Shows m f callers slots words buffers choices state → from_label state.body label ≡ Some (left m at) → Shows m (record f { at = at }) callers slots words buffers choices (in_new_block (record state { rest = left m at })) }
{}
