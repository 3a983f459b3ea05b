//! Laws of the definitions: calls that do nothing, whose contracts are the laws.

ghost use Rattle.gsl_base.specs.Ranges.{FitsTypes};
ghost use Rattle.gsl_base.specs.declared.input.Input.{Input};
ghost use Rattle.gsl_lower_follows.specs.Frames.{Frame, Global, HasType, Interface, Name, Stage, stage_types, type_named, value_of};
ghost use Rattle.gsl_lower_holders.specs.Flow.{Flow};
ghost use Rattle.gsl_lower_law_outside.specs.Beginning.{BeginsWith};
ghost use Rattle.gsl_lower_law_inputs.specs.Beginning.{AreInitialised, IsFitting, stages_given};
ghost use Rattle.gsl_lower_law_outside.specs.Beginning.{HaveOutside};
ghost use Rattle.gsl_lower_law_outside.specs.OfLawReturns.{is_shared};
ghost use Rattle.gsl_meaning.specs.Shader.{begins};
ghost use Rattle.gsl_meaning.specs.State.{State};
ghost use Rattle.gsl_spv.specs.Finished.{module_of};
ghost use Rattle.gsl_spv.specs.Sections.{Sections};
ghost use Rattle.gsl_tree.specs.Values.{is_value_of};
ghost use Rattle.gsl_tree.specs.WellTyped.{IsProgram, around_body, program_lists};
ghost use Rattle.gsl_tree.specs.declared.program.Program.{Program};
ghost use Rattle.gsl_types.specs.declared.ty.StructType.{StructType};
ghost use Rattle.gsl_types.specs.declared.ty.Ty.{Ty};
ghost use Rattle.gsl_valid.specs.Valid.{Valid};
ghost use Rattle.gsl_values.specs.declared.value.Value.{Value};
ghost use Rattle.gsl_words.specs.declared.module.Module.{Module};
ghost use Rattle.gsl_words.specs.declared.target.Target.{Target};
ghost use Rattle.std.specs.Prelude.{List, [], Option, Some, slice_get, true, ℕ, ◌≡◌};

/// In the valid module of a program each built-in variable that is used begins with the value that the input gives to it (GLSL 4.50, 7.1).
pub fn built_in_variables_begin()
    ensures { (target : Target) (p : Program) (main : ℕ) (flow : Flow) → IsProgram p → Valid (module_of flow.sections main p.local_size) → (h : HaveOutside target p main flow) → (input : Input) (number : ℕ) (v : Value) → value_of (stages_given h.place.stage_vars p.local_size input) (begins p input) (Stage number) ≡ Some v → BeginsWith (module_of flow.sections main p.local_size) input h.place (Stage number) v }
{}

/// There each global variable begins with the value of its initialiser, or with zeros where it has none, if those values are of the types of their variables (GLSL 4.50, 4.3.1).
pub fn global_variables_begin()
    ensures { (target : Target) (p : Program) (main : ℕ) (flow : Flow) → IsProgram p → Valid (module_of flow.sections main p.local_size) → (h : HaveOutside target p main flow) → (input : Input) → AreInitialised p → (stages : List (Option Value)) (number : ℕ) (v : Value) → value_of stages (begins p input) (Global number) ≡ Some v → BeginsWith (module_of flow.sections main p.local_size) input h.place (Global number) v }
{}

/// There each input begins with the words that are given at its location, and each output with zeros (GLSL 4.50, 4.3.4 and 4.3.6).
pub fn inputs_and_outputs_begin()
    ensures { (target : Target) (p : Program) (main : ℕ) (flow : Flow) → IsProgram p → Valid (module_of flow.sections main p.local_size) → (h : HaveOutside target p main flow) → (input : Input) (stages : List (Option Value)) (number : ℕ) (v : Value) → value_of stages (begins p input) (Interface number) ≡ Some v → BeginsWith (module_of flow.sections main p.local_size) input h.place (Interface number) v }
{}

/// What an input gives to a built-in variable is a value of its type, where the numbers of the input are in the ranges of their types.
pub fn built_in_values_are_typed()
    ensures { (structs : List StructType) (input : Input) → FitsTypes input → (size ids : List ℕ) (s : State) (number : ℕ) (t : Ty) (v : Value) → slice_get stage_types number ≡ Some t → value_of (stages_given ids size input) s (Stage number) ≡ Some v → is_value_of structs t v ≡ true }
{}

/// All of these values are of the types of their variables, where the input fits the program and its numbers are in the ranges of their types.
pub fn variables_have_their_types()
    ensures { (input : Input) (p : Program) → IsProgram p → IsFitting p input → FitsTypes input → AreInitialised p → (m : Module) (whole : Sections) (f : Frame m input whole) (stages : List (Option Value)) (name : Name) → is_shared name ≡ true → HasType m input whole f p (around_body (program_lists p) [] []) (type_named (around_body (program_lists p) [] []) name) (value_of stages (begins p input) name) }
{}
