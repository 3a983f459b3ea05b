//! Laws of the definitions: calls that do nothing, whose contracts are the laws.

ghost use Rattle.gsl_base.specs.declared.input.Input.{Input};
ghost use Rattle.gsl_lower_expr.specs.Parts.{Lower};
ghost use Rattle.gsl_lower_follows.specs.Frames.{Frame, Good};
ghost use Rattle.gsl_lower_holders.specs.Flow.{Emit, Flow};
ghost use Rattle.gsl_lower_holders.specs.declared.place.FlowPlace.{FlowPlace};
ghost use Rattle.gsl_lower_law_evaluated.specs.Evaluating.{IsTyped, lowered_in, meant_in};
ghost use Rattle.gsl_lower_law_shader.specs.Alike.{EndsAs, IsMain, around_main, main_begins};
ghost use Rattle.gsl_lower_law_shader.specs.Depths.{AllStand, CallsDo};
ghost use Rattle.gsl_lower_law_shader.specs.Typed.{AsksOf, KnowsTypes};
ghost use Rattle.gsl_lower_law_stmt.specs.Doing.{DoesStatement};
ghost use Rattle.gsl_lower_needs.specs.Bodies.{any_leaves};
ghost use Rattle.gsl_lower_stmt.specs.Lowering.{lowers_stmt};
ghost use Rattle.gsl_lower_stmt.specs.Parts.{LowerStmt, in_turn};
ghost use Rattle.gsl_lower_text.specs.Written.{Written};
ghost use Rattle.gsl_lower_used.specs.Lowered.{AlongAllLowered, up_to_jump};
ghost use Rattle.gsl_machine.specs.State.{State};
ghost use Rattle.gsl_meaning.specs.Expressions.{Calls};
ghost use Rattle.gsl_meaning.specs.Shader.{most_calls, shader};
ghost use Rattle.gsl_meaning.specs.Statements.{runs_all};
ghost use Rattle.gsl_spv.specs.Sections.{Sections};
ghost use Rattle.gsl_tree.specs.Statements.{IsBody};
ghost use Rattle.gsl_tree.specs.Trees.{outside, with_exits};
ghost use Rattle.gsl_tree.specs.WellTyped.{around_body, program_lists};
ghost use Rattle.gsl_tree.specs.declared.expr.StageVar.{StageVar};
ghost use Rattle.gsl_tree.specs.declared.program.Program.{Program};
ghost use Rattle.gsl_tree.specs.declared.stmt.Stmt.{Stmt};
ghost use Rattle.gsl_tree.specs.declared.unit.Function.{Function};
ghost use Rattle.gsl_types.specs.declared.ty.Direction.{Direction};
ghost use Rattle.gsl_types.specs.declared.ty.Ty.{Ty};
ghost use Rattle.gsl_valid.specs.Valid.{Valid};
ghost use Rattle.gsl_values.specs.declared.value.Value.{Value};
ghost use Rattle.gsl_words.specs.declared.module.Module.{Module};
ghost use Rattle.std.specs.Prelude.{List, Option, map, ℕ, ◌<◌, ◌≡◌};

/// The statements of a well typed body, one behind the other, do what they mean.
pub fn typed_bodies_do()
    ensures { (m : Module) (input : Input) (whole : Sections) (f : Frame m input whole) (p : Program) (params : List (Direction × Ty)) (locals : List Ty) (call : ℕ → List Lower → Ty → Emit ℕ) (stage : StageVar → Value) (calls : Calls) (ss : List Stmt) → IsTyped p params locals → KnowsTypes m input whole f p → IsBody (around_body (program_lists p) params locals) f.result ss → AlongAllLowered (AsksOf m input whole f p params locals call stage calls) (with_exits outside (up_to_jump ss)) → DoesStatement m input whole f p (around_body (program_lists p) params locals) (any_leaves (map (λ (s : LowerStmt). s.leaves) (map (lowers_stmt (lowered_in p call) locals) ss))) (in_turn (map (lowers_stmt (lowered_in p call) locals) ss)) (runs_all (meant_in p stage calls) locals ss) }
{}

/// Where the functions of a program that rank below a depth stand in a valid module as they are lowered, each call of one does what it means, wherever in the module it is called.
pub fn functions_do_at_each_depth()
    ensures { (m : Module) (input : Input) (whole : Sections) (p : Program) (place : FlowPlace) (stages : List (Option Value)) (rank : ℕ → ℕ) (depth number : ℕ) → Valid m → Written m whole → AllStand m input whole p place stages rank depth → rank number < depth → CallsDo m input whole p place stages depth number }
{}

/// From where the body of main begins, the module ends as the shader does on the input: with the same output, astray where an index is out of bounds, or still going after as many instructions as
/// there are units.
pub fn modules_end_as_shaders()
    ensures { (m : Module) (input : Input) (whole : Sections) (p : Program) (place : FlowPlace) (stages : List (Option Value)) (rank : ℕ → ℕ) (f : Frame m input whole) (tree : Function) (begin : Flow) (units : ℕ) (state : State) → Valid m → Written m whole → AllStand m input whole p place stages rank most_calls → IsMain m input whole p place stages rank f tree begin → Good m input whole f p (around_main p tree) begin (main_begins p input tree) state → EndsAs m input units state (shader p units input) }
{}
