//! Laws of the definitions: calls that do nothing, whose contracts are the laws.

ghost use Rattle.std.specs.Prelude.{◌≡◌, ◌+◌, ◌≤◌, ◌∷◌, [], List, ℕ, Ok, Some, length, map, true};
ghost use Rattle.std.specs.List.{flat_map, sum_by};
ghost use Rattle.gsl_base.specs.declared.input.Buffer.{Buffer};
ghost use Rattle.gsl_base.specs.declared.input.Input.{Input};
ghost use Rattle.gsl_base.specs.Ranges.{FitsTypes};
ghost use Rattle.gsl_frames.specs.Frames.{frame, place};
ghost use Rattle.gsl_ids.specs.Table.{number_of};
ghost use Rattle.gsl_leaves.specs.Leaves.{leaves};
ghost use Rattle.gsl_machine.specs.Fits.{fits};
ghost use Rattle.gsl_machine.specs.Functions.{back_in, begins_as, call_from, entered, from_first_label, function_at, variables_of};
ghost use Rattle.gsl_machine.specs.Interfaces.{globals, value_variables, variable_begins};
ghost use Rattle.gsl_machine.specs.Machine.{entry_of, start};
ghost use Rattle.gsl_machine.specs.State.{Held, State, Waiting, Whole, give};
ghost use Rattle.gsl_positions.specs.Positions.{left};
ghost use Rattle.gsl_region.specs.Flat.{flat, flat_all};
ghost use Rattle.gsl_region.specs.Showing as variables;
ghost use Rattle.gsl_region.specs.Showing.{with_words};
ghost use Rattle.gsl_shown.specs.Shown.{Shows, Standing, held_as};
ghost use Rattle.gsl_shown_calls.specs.Calling.{StandFor, called_at, first_at};
ghost use Rattle.gsl_sound.specs.Sound.{Good};
ghost use Rattle.gsl_sound_types.specs.Typed.{Typed, types_in, types_of};
ghost use Rattle.gsl_sound_values.specs.Shaped.{is_shaped};
ghost use Rattle.gsl_valid.specs.Ids as defining;
ghost use Rattle.gsl_valid.specs.Instruction.{read};
ghost use Rattle.gsl_valid.specs.Kinds.{Calls, kind};
ghost use Rattle.gsl_valid.specs.Placed.{Placed};
ghost use Rattle.gsl_valid.specs.Types.{defined_as};
ghost use Rattle.gsl_valid.specs.Valid.{Valid};
ghost use Rattle.gsl_values.specs.declared.value.Value.{Value};
ghost use Rattle.gsl_words.specs.declared.module.Module.{Module};

/// In a valid module, as a run begins, words show the state, where those of the module's variables stand in front and behind them those of the initialisers of the
/// first function's variables, and there are slots for all that this function takes.
pub fn runs_begin()
    ensures { (m : Module) (input : Input) (slots words : List ℕ) (function first : ℕ) (body : List Placed) → Valid m → FitsTypes input → fits m input ≡ Ok tt → variables.Shows words (map (variable_begins m input) (value_variables m)) → entry_of m.instrs ≡ Some function → function_at m function ≡ Some body → from_first_label body ≡ left m first → (frame m body).most ≤ length slots → Shows m (first_at m (number_of m function) first) [] slots (with_words words (sum_by (leaves m) (types_of m (value_variables m))) (flat_all (map (begins_as m) (variables_of body)))) input.buffers input.choices (start m input) }
{}

/// In a valid module, where a function is called, the words of what it is given show the state at its first label, at the beginning of its slots, with those of the
/// initialisers of its variables behind the words of all others, if there are slots for all that it takes.
pub fn calls_are_shown()
    ensures { (m : Module) (input : Input) (f : Standing) (callers : List Standing) (slots words : List ℕ) (buffers : List Buffer) (choices : List ℕ) (state : State) (p : Placed) (more : List Placed) (type id function : ℕ) (given : List ℕ) (held : List Held) (body : List Placed) (first : ℕ) → Valid m → Good m input state → Typed m state → Shows m f callers slots words buffers choices state → state.rest ≡ p ∷ more → kind (read p.instr) ≡ Calls type function given → defining.result (read p.instr) ≡ Some id → StandFor state.ids given held → function_at m function ≡ Some body → from_first_label body ≡ left m first → f.slots + (frame m state.body).most + (frame m body).most ≤ length slots → Shows m (called_at m f state.body (number_of m function) first) (f ∷ callers) (with_words slots (f.slots + (frame m state.body).most) (flat_map (held_as m (types_in m state)) held)) (with_words words (f.variables + (frame m state.body).variables) (flat_all (map (begins_as m) (variables_of body)))) buffers choices (entered m (globals m) body held (call_from id (record state { rest = more }) ∷ state.waiting) (record state { rest = more })) }
{}

/// Where a function returns nothing, the same words show the state behind the call, with the caller where it goes on.
pub fn returns_are_shown()
    ensures { (m : Module) (f g : Standing) (callers : List Standing) (slots words : List ℕ) (buffers : List Buffer) (choices : List ℕ) (state : State) (call : Waiting) (calls : List Waiting) → Shows m f (g ∷ callers) slots words buffers choices state → state.waiting ≡ call ∷ calls → Shows m (record g { at = g.at + 1 }) callers slots words buffers choices (back_in call calls state) }
{}

/// In a valid module, where a function returns a value of its type, the words of the value at the place of the call's id, among the slots of the caller, show the
/// state behind the call.
pub fn values_are_returned()
    ensures { (m : Module) (input : Input) (f g : Standing) (callers : List Standing) (slots words : List ℕ) (buffers : List Buffer) (choices : List ℕ) (state : State) (call : Waiting) (calls : List Waiting) (type function : ℕ) (arguments : List ℕ) (v : Value) → Valid m → Good m input state → Shows m f (g ∷ callers) slots words buffers choices state → state.waiting ≡ call ∷ calls → kind (defined_as m call.result) ≡ Calls type function arguments → is_shaped m type v ≡ true → Shows m (record g { at = g.at + 1 }) callers (with_words slots (g.slots + place m call.result) (flat v)) words buffers choices (record (back_in call calls state) { ids = give call.ids call.result (Whole v) }) }
{}
