//! Laws of the definitions: calls that do nothing, whose contracts are the laws.

ghost use Rattle.gsl_base.specs.declared.input.Input.{Input};
ghost use Rattle.gsl_lower_expr.specs.Parts.{Lower};
ghost use Rattle.gsl_lower_follows.specs.Frames.{Frame};
ghost use Rattle.gsl_lower_holders.specs.Flow.{Emit};
ghost use Rattle.gsl_lower_law_body.specs.Asking.{AsksAt};
ghost use Rattle.gsl_lower_law_shader.specs.OfLawEvaluated.{Asks, IsEvaluated, IsTyped, NoVectors, lowered_in, meant_in};
ghost use Rattle.gsl_lower_law_shader.specs.Typed.{AsksOf, KnowsTypes};
ghost use Rattle.gsl_lower_law_stmt.specs.Doing.{DoesStatement};
ghost use Rattle.gsl_lower_needs.specs.Bodies.{any_leaves};
ghost use Rattle.gsl_lower_stmt.specs.Lowering.{lowers_stmt};
ghost use Rattle.gsl_lower_stmt.specs.Parts.{LowerStmt, in_turn};
ghost use Rattle.gsl_meaning.specs.Expressions.{Calls};
ghost use Rattle.gsl_meaning.specs.Statements.{runs, runs_all};
ghost use Rattle.gsl_spv.specs.Sections.{Sections};
ghost use Rattle.gsl_tree.specs.Around.{Around};
ghost use Rattle.gsl_tree.specs.Expressions.{IsExpr};
ghost use Rattle.gsl_tree.specs.Statements.{IsBody};
ghost use Rattle.gsl_tree.specs.Trees.{Along, AlongAll, Exits, Throughout, outside, type_of, with_exits};
ghost use Rattle.gsl_tree.specs.WellTyped.{around_body, program_lists};
ghost use Rattle.gsl_tree.specs.declared.expr.Expr.{Expr};
ghost use Rattle.gsl_tree.specs.declared.expr.StageVar.{StageVar};
ghost use Rattle.gsl_tree.specs.declared.program.Program.{Program};
ghost use Rattle.gsl_tree.specs.declared.stmt.Stmt.{Stmt};
ghost use Rattle.gsl_types.specs.Known.{IsSound};
ghost use Rattle.gsl_types.specs.declared.ty.Direction.{Direction};
ghost use Rattle.gsl_types.specs.declared.ty.Ty.{Ty};
ghost use Rattle.gsl_values.specs.declared.value.Value.{Value};
ghost use Rattle.gsl_words.specs.declared.module.Module.{Module};
ghost use Rattle.std.specs.Prelude.{List, length, map, ℕ};
ghost use Rattle.gsl_meaning.specs.Expressions as meaning;
ghost use Rattle.gsl_lower_expr.specs.Lowering as lowering;

/// A well typed expression, as it is lowered, gives its value and leads where it does, where what is asked is so of all expressions in it (GLSL 4.50, chapter 5).
pub fn expressions_evaluate()
    ensures { (m : Module) (input : Input) (whole : Sections) (f : Frame m input whole) (p : Program) (params : List (Direction × Ty)) (locals : List Ty) (call : ℕ → List Lower → Ty → Emit ℕ) (stage : StageVar → Value) (calls : Calls) (e : Expr) → IsTyped p params locals → NoVectors m input whole f → IsExpr (around_body (program_lists p) params locals) e → Throughout (λ (part : Expr). IsSound (length p.structs) (type_of part)) e → Throughout (Asks m input whole f p params locals call stage calls) e → IsEvaluated m input whole f p params locals call stage calls e }
{}

/// Each statement does what it means, where all expressions in it give their values (GLSL 4.50, chapter 6).
pub fn statements_do()
    ensures { (m : Module) (input : Input) (sections : Sections) (f : Frame m input sections) (p : Program) (around : Around) (lower : lowering.Setting) (means : meaning.Setting) (locals : List Ty) (exits : Exits) (s : Stmt) → Along (AsksAt m input sections f p around lower means locals) exits s → DoesStatement m input sections f p around (lowers_stmt lower locals s).leaves (lowers_stmt lower locals s).run (runs means locals s) }
{}

/// The statements of a body, one behind the other, do so (GLSL 4.50, chapter 6).
pub fn bodies_do()
    ensures { (m : Module) (input : Input) (sections : Sections) (f : Frame m input sections) (p : Program) (around : Around) (lower : lowering.Setting) (means : meaning.Setting) (locals : List Ty) (exits : Exits) (ss : List Stmt) → AlongAll (AsksAt m input sections f p around lower means locals) (with_exits exits ss) → DoesStatement m input sections f p around (any_leaves (map (λ (s : LowerStmt). s.leaves) (map (lowers_stmt lower locals) ss))) (in_turn (map (lowers_stmt lower locals) ss)) (runs_all means locals ss) }
{}

/// The statements of a well typed body do what they mean, where what is asked is so of all expressions in it (GLSL 4.50, 6.1).
pub fn typed_bodies_do()
    ensures { (m : Module) (input : Input) (whole : Sections) (f : Frame m input whole) (p : Program) (params : List (Direction × Ty)) (locals : List Ty) (call : ℕ → List Lower → Ty → Emit ℕ) (stage : StageVar → Value) (calls : Calls) (ss : List Stmt) → IsTyped p params locals → KnowsTypes m input whole f p → IsBody (around_body (program_lists p) params locals) f.result ss → AlongAll (AsksOf m input whole f p params locals call stage calls) (with_exits outside ss) → DoesStatement m input whole f p (around_body (program_lists p) params locals) (any_leaves (map (λ (s : LowerStmt). s.leaves) (map (lowers_stmt (lowered_in p call) locals) ss))) (in_turn (map (lowers_stmt (lowered_in p call) locals) ss)) (runs_all (meant_in p stage calls) locals ss) }
{
    gsl_lower_law_shader::typed_bodies_do();
}
