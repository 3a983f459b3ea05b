//! Laws of the definitions: calls that do nothing, whose contracts are the laws.

ghost use Rattle.std.specs.Prelude.{◌≡◌, ℕ, List, Option, Some, slice_get};
ghost use Rattle.gsl_base.specs.declared.input.Input.{Input};
ghost use Rattle.gsl_types.specs.Known.{AreStructs};
ghost use Rattle.gsl_types.specs.declared.ty.Ty.{Ty};
ghost use Rattle.gsl_words.specs.declared.module.Module.{Module};
ghost use Rattle.gsl_values.specs.declared.value.Value.{Value};
ghost use Rattle.gsl_tree.specs.Around.{Around};
ghost use Rattle.gsl_tree.specs.Weights.{params_of};
ghost use Rattle.gsl_tree.specs.declared.program.Program.{Program};
ghost use Rattle.gsl_meaning.specs.Expressions as shader;
ghost use Rattle.gsl_meaning.specs.Expressions.{Meant, Setting};
ghost use Rattle.gsl_spv.specs.Sections.{Sections};
ghost use Rattle.gsl_lower_holders.specs.declared.place.FlowPlace.{FlowPlace};
ghost use Rattle.gsl_lower_expr.specs.Calls.{calling};
ghost use Rattle.gsl_lower_expr.specs.Parts.{Lower, any_splits};
ghost use Rattle.gsl_lower_follows.specs.Frames.{Frame};
ghost use Rattle.gsl_lower_follows.specs.Giving.{GivesValue};
ghost use Rattle.gsl_lower_law_returns.specs.Calling.{AreAlike};
ghost use Rattle.gsl_lower_law_entered.specs.Modules.{IsFrame};
ghost use Rattle.gsl_lower_law_functions.specs.Functions.{FunctionDoes};
ghost use Rattle.gsl_lower_law_passed.specs.Arguments.{AllServe};

/// A call of a function: its arguments from left to right, each in a holder of its own, of which what `out` and `inout` ones lead to is found once, in its turn; then what the function does, where
/// it does what it means; and then the values of `out` and `inout` parameters at its end, which are stored from left to right.
pub fn calls_pass()
    ensures { (m : Module) (input : Input) (whole : Sections) (f : Frame m input whole) (p : Program) (around globals : Around) (place : FlowPlace) (stages : List (Option Value)) (setting : Setting) (number function : ℕ) (args : List Lower) (xs : List Meant) (t : Ty) → AreStructs p.structs → setting.structs ≡ p.structs → IsFrame m input whole place stages f → slice_get place.functions number ≡ Some function → AreAlike around globals → AllServe m input whole f p around (params_of (slice_get setting.prototypes number)) args xs → FunctionDoes m input whole p place stages globals function (params_of (slice_get setting.prototypes number)) t (setting.call number) → GivesValue m input whole f p around (any_splits args) t (calling p.structs setting.prototypes number args t) (shader.calling setting number xs) }
{}
