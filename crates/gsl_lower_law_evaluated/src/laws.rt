//! Laws of the definitions: calls that do nothing, whose contracts are the laws.

ghost use Rattle.std.specs.Prelude.{ℕ, List, None, false, length, ◌≡◌};
ghost use Rattle.gsl_base.specs.declared.input.Input.{Input};
ghost use Rattle.gsl_types.specs.Known.{IsSound};
ghost use Rattle.gsl_types.specs.declared.ty.Direction.{Direction};
ghost use Rattle.gsl_types.specs.declared.ty.Ty.{Ty};
ghost use Rattle.gsl_types.specs.declared.ty.Ty.TheViews.{out-Ty};
ghost use Rattle.gsl_words.specs.declared.module.Module.{Module};
ghost use Rattle.gsl_values.specs.declared.value.Value.{Value};
ghost use Rattle.gsl_tree.specs.Expressions.{IsExpr, is_runtime_layer};
ghost use Rattle.gsl_tree.specs.Shapes.{shape_of};
ghost use Rattle.gsl_tree.specs.Trees.{Throughout, type_of};
ghost use Rattle.gsl_tree.specs.WellTyped.{around_body, program_lists};
ghost use Rattle.gsl_tree.specs.declared.expr.Expr.{Expr};
ghost use Rattle.gsl_tree.specs.declared.expr.StageVar.{StageVar};
ghost use Rattle.gsl_tree.specs.declared.program.Program.{Program};
ghost use Rattle.gsl_meaning.specs.Expressions.{Calls};
ghost use Rattle.gsl_valid.specs.Valid.{Valid};
ghost use Rattle.gsl_spv.specs.Sections.{Sections};
ghost use Rattle.gsl_lower_text.specs.Written.{Written};
ghost use Rattle.gsl_lower_holders.specs.Flow.{Emit};
ghost use Rattle.gsl_lower_expr.specs.Parts.{Lower};
ghost use Rattle.gsl_lower_follows.specs.Frames.{Frame};
ghost use Rattle.gsl_lower_used.specs.Lowered.{ThroughoutLowered};
ghost use Rattle.gsl_lower_law_evaluated.specs.Beside.{AsksBeside, KnowsWholes};
ghost use Rattle.gsl_lower_law_evaluated.specs.Evaluating.{Asks, IsEvaluated, IsReadWhole, IsTyped, NoVectors};
ghost use Rattle.gsl_lower_law_gathered.specs.Gathering.{AreShaped, HasValues};

/// A well typed expression, as it is lowered, gives its value and leads where it does, wherever it stands: one recursion over all kinds of expressions. Nothing is asked of what `.length()` is taken of, which is not evaluated.
pub fn expressions_evaluate()
    ensures { (m : Module) (input : Input) (whole : Sections) (f : Frame m input whole) (p : Program) (params : List (Direction × Ty)) (locals : List Ty) (call : ℕ → List Lower → Ty → Emit ℕ) (stage : StageVar → Value) (calls : Calls) (e : Expr) → IsTyped p params locals → NoVectors m input whole f → IsExpr (around_body (program_lists p) params locals) e → Throughout (λ (part : Expr). IsSound (length p.structs) (type_of part)) e → ThroughoutLowered p.prototypes (Asks m input whole f p params locals call stage calls) e → IsEvaluated m input whole f p params locals call stage calls e }
{}

/// A struct or an array in a block that leads where it does gives its value, where it is read whole.
pub fn wholes_in_blocks_give()
    ensures { (m : Module) (input : Input) (whole : Sections) (f : Frame m input whole) (p : Program) (params : List (Direction × Ty)) (locals : List Ty) (call : ℕ → List Lower → Ty → Emit ℕ) (stage : StageVar → Value) (calls : Calls) (e : Expr) → IsTyped p params locals → NoVectors m input whole f → Valid m → Written m whole → AreShaped m input whole f p (around_body (program_lists p) params locals) → IsSound (length p.structs) (type_of e) → (shape_of (type_of e) ≡ None → is_runtime_layer (out-Ty (type_of e)) ≡ false → HasValues m p.structs f.place (type_of e)) → IsEvaluated m input whole f p params locals call stage calls e → IsReadWhole m input whole f p params locals call stage calls e }
{}

/// So does a well typed expression of which nothing is asked of what it reads whole: structs and arrays in blocks give their values, in it and as it stands there.
pub fn expressions_that_read_wholes_evaluate()
    ensures { (m : Module) (input : Input) (whole : Sections) (f : Frame m input whole) (p : Program) (params : List (Direction × Ty)) (locals : List Ty) (call : ℕ → List Lower → Ty → Emit ℕ) (stage : StageVar → Value) (calls : Calls) (e : Expr) → IsTyped p params locals → NoVectors m input whole f → KnowsWholes m input whole f p params locals → IsExpr (around_body (program_lists p) params locals) e → Throughout (λ (part : Expr). IsSound (length p.structs) (type_of part)) e → ThroughoutLowered p.prototypes (AsksBeside m input whole f p params locals call stage calls) e → IsEvaluated m input whole f p params locals call stage calls e × IsReadWhole m input whole f p params locals call stage calls e }
{}
