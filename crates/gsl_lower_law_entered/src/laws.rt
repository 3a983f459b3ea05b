//! Laws of the definitions: calls that do nothing, whose contracts are the laws.

ghost use Rattle.std.specs.Prelude.{◌≡◌, ℕ, List, ◌∷◌, length, slice_get, Option};
ghost use Rattle.gsl_base.specs.declared.input.Input.{Input};
ghost use Rattle.gsl_instr.specs.declared.op.TheConstants as op;
ghost use Rattle.gsl_types.specs.declared.ty.Ty.{Ty};
ghost use Rattle.gsl_words.specs.declared.module.Module.{Module};
ghost use Rattle.gsl_values.specs.declared.value.Value.{Value};
ghost use Rattle.gsl_tree.specs.Around.{Around};
ghost use Rattle.gsl_tree.specs.declared.program.Program.{Program};
ghost use Rattle.gsl_meaning.specs.State as shader;
ghost use Rattle.gsl_valid.specs.Placed.{Code, placed_from};
ghost use Rattle.gsl_valid.specs.Valid.{Valid};
ghost use Rattle.gsl_machine.specs.Functions.{own_ids};
ghost use Rattle.gsl_machine.specs.Interfaces.{globals};
ghost use Rattle.gsl_machine.specs.State.{Held, State};
ghost use Rattle.gsl_spv.specs.Sections.{Sections};
ghost use Rattle.gsl_lower_holders.specs.Flow.{Flow, Gives, giving_here};
ghost use Rattle.gsl_lower_holders.specs.declared.place.FlowPlace.{FlowPlace};
ghost use Rattle.gsl_lower_text.specs.Written.{Written};
ghost use Rattle.gsl_lower_follows.specs.Frames.{Frame, Good, HasType, Inside, Param, coming, type_named};
ghost use Rattle.gsl_lower_frames.specs.Standing.{StandsIn, place_in};
ghost use Rattle.gsl_lower_law_returns.specs.Calling.{AreAlike};
ghost use Rattle.gsl_lower_law_entered.specs.Modules.{AreShared, IsFrame, IsFunction, PassCalls};
ghost use Rattle.gsl_lower_law_entered.specs.Entering.{Argument, AreHeld, HasEntered, ids_of, values_of};

/// As a function of a valid module begins, no id of what a call gives stands for anything, whatever the arguments.
pub fn results_of_calls_do_not_last()
    ensures { (m : Module) (whole : Sections) (id : ℕ) (code : Code) → Valid m → Written m whole → (s : StandsIn m id code) → (held : List Held) (count : ℕ) → PassCalls whole (own_ids (globals m) (placed_from (place_in m id code s) code) held count) }
{}

/// A call of a function whose arguments wait in holders leads to where the body of the function begins, with zeros in its local variables.
pub fn calls_lead_into_functions()
    ensures { (m : Module) (input : Input) (whole : Sections) (f : Frame m input whole) (p : Program) (around inner : Around) (place : FlowPlace) (stages : List (Option Value)) (result : Ty) (function : ℕ) (begin b later : Flow) (args : List Argument) (type id first : ℕ) (s : shader.State) (state : State) → Valid m → Written m whole → (fn : IsFunction m whole p.structs place inner.locals function begin) → IsFrame m input whole place stages f → AreAlike around inner → Good m input whole f p around b s state → giving_here op.FUNCTION_CALL (function ∷ ids_of args) type b ≡ Gives id later → Inside m input whole f later.sections → AreHeld m input whole f first state args → length args ≡ length begin.place.params → ((number : ℕ) → HasType m input whole f p inner (type_named inner (Param number)) (slice_get (values_of args) number)) → HasEntered m input whole f p (IsFrame m input whole place stages) inner result first id args fn.before fn.code begin s state (coming m input whole f later.sections) }
{}
