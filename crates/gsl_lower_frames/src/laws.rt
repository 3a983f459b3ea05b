//! Laws of the definitions: calls that do nothing, whose contracts are the laws.

ghost use Rattle.std.specs.Prelude.{◌≡◌, ℕ, List, [], ◌∷◌, ◌++◌, ◌<◌, length, slice_get, Option, None, Some};
ghost use Rattle.gsl_base.specs.declared.input.Input.{Input};
ghost use Rattle.gsl_instr.specs.declared.op.TheConstants as op;
ghost use Rattle.gsl_types.specs.declared.ty.Ty.{Ty};
ghost use Rattle.gsl_types.specs.declared.ty.Ty.TheVariants.{Void};
ghost use Rattle.gsl_words.specs.declared.module.Module.{Module};
ghost use Rattle.gsl_values.specs.declared.value.Value.{Value};
ghost use Rattle.gsl_valid.specs.IdsDefinedOnce.{ids_defined_once};
ghost use Rattle.gsl_valid.specs.Kinds.{Variable};
ghost use Rattle.gsl_valid.specs.Placed.{Code, placed_from, words_from};
ghost use Rattle.gsl_valid.specs.Valid.{Valid};
ghost use Rattle.gsl_machine.specs.Functions.{entered, from_label, function_at, own_ids};
ghost use Rattle.gsl_machine.specs.Interfaces.{globals};
ghost use Rattle.gsl_machine.specs.Machine.{entry_of, start};
ghost use Rattle.gsl_machine.specs.State.{Held, InVariable, Points, State, Waiting};
ghost use Rattle.gsl_spv.specs.Calls.{imports_of};
ghost use Rattle.gsl_spv.specs.Declarations.{instr};
ghost use Rattle.gsl_spv.specs.Finished.{module_of};
ghost use Rattle.gsl_spv.specs.Sections.{Sections};
ghost use Rattle.gsl_lower_holders.specs.declared.place.FlowPlace.{FlowPlace};
ghost use Rattle.gsl_lower_law.specs.Values.{Text};
ghost use Rattle.gsl_lower_text.specs.Written.{Written};
ghost use Rattle.gsl_lower_frames.specs.Calling.{AreKnown, ArePassed};
ghost use Rattle.gsl_lower_frames.specs.Standing.{EndsHere, StandsIn, begins, place_in};
ghost use Rattle.gsl_lower_frames.specs.Starting.{HasFrame, IsEntered, Starts, ids_in, variables_in};

/// Where each id is defined once, a label of a function's code is found where it stands.
pub fn labels_are_found()
    ensures { (m : Module) (id : ℕ) (code : Code) (first : ℕ) → ids_defined_once m ≡ None → StandsIn m id code → (front rest : Code) (label : ℕ) → code ≡ front ++ instr op.LABEL (label ∷ []) ∷ rest → from_label (placed_from first code) label ≡ Some (placed_from (words_from first front) (instr op.LABEL (label ∷ []) ∷ rest)) }
{}

/// Where each id is defined once, a function's code is found by its id; and it has fewer instructions than the module has words.
pub fn functions_stand()
    ensures found { (m : Module) (id : ℕ) (code : Code) → ids_defined_once m ≡ None → (s : StandsIn m id code) → function_at m id ≡ Some (placed_from (place_in m id code s) code) }
    ensures short { (m : Module) (id : ℕ) (code : Code) → StandsIn m id code → length code < words_from 0 m.instrs }
{}

/// A function that stands among the functions of a builder stands in the module that it gives.
pub fn sections_hold_functions()
    ensures { (s : Sections) (main : ℕ) (local_size : List ℕ) (before code behind : Code) (id returned control function_type : ℕ) → s.functions ≡ before ++ begins id returned control function_type ∷ (code ++ behind) → EndsHere code → StandsIn (module_of s main local_size) id code }
{}

/// As a function of a valid module begins, the module says what the sections hold that are part of it, whatever the arguments.
pub fn functions_text()
    ensures { (m : Module) (sections : Sections) (id : ℕ) (code : Code) → Valid m → Written m sections → (s : StandsIn m id code) → (held : List Held) (count : ℕ) → Text m sections (own_ids (globals m) (placed_from (place_in m id code s) code) held count) }
{}

/// The number of the variable that an id points to as a function begins which is entered first is the variable's position among those of
/// the module and those of the function.
pub fn numbers_are_positions()
    ensures { (m : Module) (code : Code) (id number : ℕ) → ids_in m code id ≡ Some (Points (InVariable number [])) → (v : Variable) × (slice_get (variables_in m code) number ≡ Some v) × (v.id ≡ id) }
{}

/// A module starts where the function begins that its entry point names.
pub fn modules_start()
    ensures { (m : Module) (input : Input) (id : ℕ) (code : Code) → ids_defined_once m ≡ None → entry_of m.instrs ≡ Some id → (s : StandsIn m id code) → Starts m input (place_in m id code s) code (start m input) }
{}

/// The entry point of the module that a builder gives names the function that is main.
pub fn modules_enter_main()
    ensures { (s : Sections) (main : ℕ) (local_size : List ℕ) (set : Option ℕ) → s.imports ≡ imports_of set → entry_of (module_of s main local_size).instrs ≡ Some main }
{}

/// Where the module of a builder starts there is a frame of main, and the ids of the names that are known point to their variables.
pub fn main_has_a_frame()
    ensures { (input : Input) (whole : Sections) (main : ℕ) (local_size : List ℕ) (code : Code) (place : FlowPlace) (stages : List (Option Value)) → (e : IsEntered whole main local_size code place) → HasFrame (module_of whole main local_size) input whole (e.before ++ begins main e.returned e.control e.function_type ∷ []) code place Void stages (start (module_of whole main local_size) input) }
{}

/// Where a function begins that is called, with pointers to variables that run, there is a frame of it, and the ids of the names that are
/// known point to their variables.
pub fn called_functions_have_frames()
    ensures { (m : Module) (whole : Sections) (input : Input) (id : ℕ) (before code behind : Code) (place : FlowPlace) (result : Ty) (stages : List (Option Value)) (held : List Held) (waiting : List Waiting) (state : State) → Valid m → Written m whole → (s : StandsIn m id code) → whole.functions ≡ before ++ (code ++ behind) → ArePassed m (placed_from (place_in m id code s) code) held (length state.variables) → AreKnown m (placed_from (place_in m id code s) code) place → HasFrame m input whole before code place result stages (entered m (globals m) (placed_from (place_in m id code s) code) held waiting state) }
{}
