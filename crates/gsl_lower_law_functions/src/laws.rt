//! Laws of the definitions: calls that do nothing, whose contracts are the laws.

ghost use Rattle.std.specs.Prelude.{◌≡◌, ◌≢◌, ℕ, suc, Bool, List, length, slice_get, Option, Some, true};
ghost use Rattle.gsl_base.specs.declared.input.Input.{Input};
ghost use Rattle.gsl_types.specs.Known.{AreStructs, IsSound};
ghost use Rattle.gsl_types.specs.declared.ty.Direction.{Direction};
ghost use Rattle.gsl_types.specs.declared.ty.StructType.{StructType};
ghost use Rattle.gsl_types.specs.declared.ty.Ty.{Ty};
ghost use Rattle.gsl_types.specs.declared.ty.Ty.TheVariants.{Void};
ghost use Rattle.gsl_words.specs.declared.module.Module.{Module};
ghost use Rattle.gsl_values.specs.declared.value.Value.{Value};
ghost use Rattle.gsl_tree.specs.Around.{Around};
ghost use Rattle.gsl_tree.specs.Values.{is_value_of, zero_value};
ghost use Rattle.gsl_tree.specs.Weights.{params_of};
ghost use Rattle.gsl_tree.specs.declared.program.Program.{Program};
ghost use Rattle.gsl_tree.specs.declared.unit.Function.{Function};
ghost use Rattle.gsl_meaning.specs.Expressions as shader;
ghost use Rattle.gsl_meaning.specs.Expressions.{Meant, Setting};
ghost use Rattle.gsl_meaning.specs.Running.{Run, spending};
ghost use Rattle.gsl_meaning.specs.Shader.{calls, function_of, result_type, setting_of};
ghost use Rattle.gsl_meaning.specs.Statements as statement;
ghost use Rattle.gsl_meaning.specs.Statements.{runs_all};
ghost use Rattle.gsl_valid.specs.Valid.{Valid};
ghost use Rattle.gsl_spv.specs.Sections.{Sections};
ghost use Rattle.gsl_lower_holders.specs.Flow.{Emit, Flow};
ghost use Rattle.gsl_lower_holders.specs.declared.place.FlowPlace.{FlowPlace};
ghost use Rattle.gsl_lower_expr.specs.Calls.{calling};
ghost use Rattle.gsl_lower_expr.specs.Parts.{Lower, any_splits};
ghost use Rattle.gsl_lower_stmt.specs.declared.exits.Exits.{Exits};
ghost use Rattle.gsl_lower_text.specs.Written.{Written};
ghost use Rattle.gsl_lower_follows.specs.Frames.{Frame};
ghost use Rattle.gsl_lower_follows.specs.Giving.{GivesValue};
ghost use Rattle.gsl_lower_law_expr.specs.Known.{AllGive};
ghost use Rattle.gsl_lower_law_entered.specs.OfLawStmt.{DoesStatement};
ghost use Rattle.gsl_lower_law_entered.specs.OfLawReturns.{AreAlike};
ghost use Rattle.gsl_lower_law_entered.specs.Modules.{IsFrame, IsFunction};
ghost use Rattle.gsl_lower_law_functions.specs.Bodies.{DoesBody, GivesZeros, bodied};
ghost use Rattle.gsl_lower_law_functions.specs.Functions.{FunctionDoes, IsLowered, running_body};
ghost use Rattle.gsl_lower_law_functions.specs.Passing.{AreOf, ins};

/// A body whose statements do what they mean comes to the return of what they return, and, where its end is reached, of zeros, or of nothing where the
/// function gives nothing.
pub fn bodies_end()
    ensures with_value { (m : Module) (input : Input) (whole : Sections) (f : Frame m input whole) (p : Program) (around : Around) (leaves : Bool) (row : Exits → Emit (Unit {0})) (run : Run statement.Flow) (b : Flow) → DoesStatement m input whole f p around leaves row run → f.result ≢ Void → GivesZeros m input whole f p around f.result b → DoesBody m input whole f p around b (bodied row leaves f.result) run }
    ensures without { (m : Module) (input : Input) (whole : Sections) (f : Frame m input whole) (p : Program) (around : Around) (leaves : Bool) (row : Exits → Emit (Unit {0})) (run : Run statement.Flow) (b : Flow) → DoesStatement m input whole f p around leaves row run → f.result ≡ Void → DoesBody m input whole f p around b (bodied row leaves f.result) run }
{}

/// Where the body of a function does what it means in each frame of it, a call of the function does, wherever it is called: a unit is used, and the caller goes on with
/// its own parameters and local variables.
pub fn functions_do()
    ensures { (m : Module) (input : Input) (whole : Sections) (p : Program) (inner : Around) (place : FlowPlace) (stages : List (Option Value)) (function : ℕ) (begin : Flow) (result : Ty) (body : Emit (Unit {0})) (run : Run statement.Flow) → Valid m → Written m whole → (fn : IsFunction m whole p.structs place inner.locals function begin) → IsLowered whole begin fn.rest body → length inner.params ≡ length begin.place.params → AreStructs p.structs → IsSound (length p.structs) result → ((g : Frame m input whole) → IsFrame m input whole place stages g → g.before ≡ fn.before → g.code ≡ fn.code → g.result ≡ result → DoesBody m input whole g p inner begin body run) → FunctionDoes m input whole p place stages inner function inner.params result (λ args. spending (running_body p.structs inner.locals result run args)) }
{}

/// So calls of the program's functions at a depth do what they mean, where bodies do whose calls are one less deep.
pub fn calls_do_at_each_depth()
    ensures { (m : Module) (input : Input) (whole : Sections) (p : Program) (place : FlowPlace) (stages : List (Option Value)) (globals : Around) (function number depth : ℕ) (params : List (Direction × Ty)) (f : Function) → function_of p.functions number ≡ Some f → FunctionDoes m input whole p place stages globals function params (result_type (slice_get p.prototypes number)) (λ args. spending (running_body p.structs f.locals (result_type (slice_get p.prototypes number)) (runs_all (setting_of p input (calls p input depth)) f.locals f.body) args)) → FunctionDoes m input whole p place stages globals function params (result_type (slice_get p.prototypes number)) (calls p input (suc depth) number) }
{}

/// A call of a function whose parameters go in alone: the values of the arguments, from left to right, each in a holder of its own, and then what the function does, where the function does
/// what it means.
pub fn calls_give()
    ensures { (m : Module) (input : Input) (whole : Sections) (f : Frame m input whole) (p : Program) (around globals : Around) (place : FlowPlace) (stages : List (Option Value)) (structs : List StructType) (setting : Setting) (number function : ℕ) (args : List Lower) (xs : List Meant) (tys : List Ty) (t : Ty) → IsFrame m input whole place stages f → slice_get place.functions number ≡ Some function → AreAlike around globals → params_of (slice_get setting.prototypes number) ≡ ins tys → AreOf args tys → AllGive (GivesValue m input whole f p around) args xs → FunctionDoes m input whole p place stages globals function (ins tys) t (setting.call number) → GivesValue m input whole f p around (any_splits args) t (calling structs setting.prototypes number args t) (shader.calling setting number xs) }
{}
