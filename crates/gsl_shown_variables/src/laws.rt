//! Laws of the definitions: calls that do nothing, whose contracts are the laws.

ghost use Rattle.std.specs.Prelude.{◌≡◌, ◌+◌, ◌++◌, [], List, ℕ, Some, length, slice_get};
ghost use Rattle.gsl_base.specs.declared.input.Buffer.{Buffer};
ghost use Rattle.gsl_base.specs.declared.input.Input.{Input};
ghost use Rattle.gsl_frames.specs.Frames.{place};
ghost use Rattle.gsl_machine.specs.Functions.{variables_of};
ghost use Rattle.gsl_machine.specs.Interfaces.{value_variables};
ghost use Rattle.gsl_machine.specs.State.{State};
ghost use Rattle.gsl_memory_law.specs.Typed.{place_by};
ghost use Rattle.gsl_shown.specs.Shown.{Shows, Standing};
ghost use Rattle.gsl_sound.specs.Sound.{Good};
ghost use Rattle.gsl_sound_types.specs.Typed.{types_below, types_in, types_of};
ghost use Rattle.gsl_valid.specs.Kinds.{Variable};
ghost use Rattle.gsl_valid.specs.Valid.{Valid};
ghost use Rattle.gsl_words.specs.declared.module.Module.{Module};

/// In a valid module a variable of the module stands among the words of all where its id has its place, whatever variables there are beside the module's; and a
/// variable of the function that runs, where words show the state, at its place behind the words of all that were there before the function.
pub fn variables_stand_in_order()
    ensures outer { (m : Module) (more : List ℕ) (number : ℕ) (v : Variable) → Valid m → slice_get (value_variables m) number ≡ Some v → place_by m (types_of m (value_variables m) ++ more) number [] ≡ place m v.id }
    ensures own { (m : Module) (input : Input) (f : Standing) (callers : List Standing) (slots words : List ℕ) (buffers : List Buffer) (choices : List ℕ) (state : State) (number : ℕ) (v : Variable) → Valid m → Good m input state → Shows m f callers slots words buffers choices state → slice_get (variables_of state.body) number ≡ Some v → place_by m (types_in m state) (length (types_below m state.waiting) + number) [] ≡ f.variables + place m v.id }
{}
