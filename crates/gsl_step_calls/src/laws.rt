//! A law of the definitions: a call that does nothing, whose contract is the law.

ghost use Rattle.std.specs.Prelude.{◌≡◌, ◌∷◌, List, ℕ, Some, map};
ghost use Rattle.std.specs.List.{flat_map};
ghost use Rattle.gsl_base.specs.declared.input.Input.{Input};
ghost use Rattle.gsl_ids.specs.Table.{number_of};
ghost use Rattle.gsl_machine.specs.Functions.{begins_as, call_from, entered, from_first_label, function_at, variables_of};
ghost use Rattle.gsl_machine.specs.Interfaces.{globals};
ghost use Rattle.gsl_machine.specs.State.{Held, State};
ghost use Rattle.gsl_positions.specs.Positions.{left};
ghost use Rattle.gsl_region.specs.Flat.{flat_all};
ghost use Rattle.gsl_shown.specs.Shown.{held_as};
ghost use Rattle.gsl_shown_calls.specs.Calling.{StandFor};
ghost use Rattle.gsl_sound.specs.Sound.{Good};
ghost use Rattle.gsl_sound_types.specs.Typed.{Typed, types_in};
ghost use Rattle.gsl_step.specs.Machine.{IsShown};
ghost use Rattle.gsl_step.specs.declared.machine.Machine.{Machine};
ghost use Rattle.gsl_step_calls.specs.Calling.{Enters, HasRoomToCall};
ghost use Rattle.gsl_valid.specs.Ids as defining;
ghost use Rattle.gsl_valid.specs.Instruction.{read};
ghost use Rattle.gsl_valid.specs.Kinds.{Calls, kind};
ghost use Rattle.gsl_valid.specs.Placed.{Placed};
ghost use Rattle.gsl_valid.specs.Valid.{Valid};
ghost use Rattle.gsl_words.specs.declared.module.Module.{Module};

/// In a valid module, where a machine shows a state in which a call is next and there is room for what the function takes, a machine shows the state at the first label of the function that stands
/// there, with the words of what the arguments stand for and of what the function's variables begin as.
pub fn calls_are_entered()
    ensures { (m : Module) (input : Input) (machine next : Machine) (state : State) (p : Placed) (more : List Placed) (type id function : ℕ) (given : List ℕ) (held : List Held) (body : List Placed) (first : ℕ) → Valid m → Good m input state → Typed m state → IsShown m machine state → state.rest ≡ p ∷ more → kind (read p.instr) ≡ Calls type function given → defining.result (read p.instr) ≡ Some id → StandFor state.ids given held → function_at m function ≡ Some body → from_first_label body ≡ left m first → HasRoomToCall m machine state.body body → Enters m machine state.body (number_of m function) first (flat_map (held_as m (types_in m state)) held) (flat_all (map (begins_as m) (variables_of body))) next → IsShown m next (entered m (globals m) body held (call_from id (record state { rest = more }) ∷ state.waiting) (record state { rest = more })) }
{}
