//! Laws of the definitions: calls that do nothing, whose contracts are the laws.

ghost use Rattle.std.specs.Prelude.{List, map};
ghost use Rattle.gsl_base.specs.declared.input.Input.{Input};
ghost use Rattle.gsl_types.specs.declared.ty.Ty.{Ty};
ghost use Rattle.gsl_words.specs.declared.module.Module.{Module};
ghost use Rattle.gsl_tree.specs.Around.{Around};
ghost use Rattle.gsl_tree.specs.Trees.{Exits, with_exits};
ghost use Rattle.gsl_tree.specs.declared.program.Program.{Program};
ghost use Rattle.gsl_tree.specs.declared.stmt.Stmt.{Stmt};
ghost use Rattle.gsl_meaning.specs.Expressions as meaning;
ghost use Rattle.gsl_meaning.specs.Statements.{runs, runs_all};
ghost use Rattle.gsl_spv.specs.Sections.{Sections};
ghost use Rattle.gsl_lower_expr.specs.Lowering as lowering;
ghost use Rattle.gsl_lower_needs.specs.Bodies.{any_leaves};
ghost use Rattle.gsl_lower_stmt.specs.Lowering.{lowers_stmt};
ghost use Rattle.gsl_lower_stmt.specs.Parts.{LowerStmt, in_turn};
ghost use Rattle.gsl_lower_used.specs.Lowered.{AlongAllLowered, AlongLowered, up_to_jump};
ghost use Rattle.gsl_lower_follows.specs.Frames.{Frame};
ghost use Rattle.gsl_lower_law_stmt.specs.Doing.{DoesStatement};
ghost use Rattle.gsl_lower_law_body.specs.Asking.{AsksAt};

/// Each statement, where the expressions in what is lowered of it give their values: behind a jump nothing is.
pub fn statements_do()
    ensures { (m : Module) (input : Input) (sections : Sections) (f : Frame m input sections) (p : Program) (around : Around) (lower : lowering.Setting) (means : meaning.Setting) (locals : List Ty) (exits : Exits) (s : Stmt) → AlongLowered (AsksAt m input sections f p around lower means locals) exits s → DoesStatement m input sections f p around (lowers_stmt lower locals s).leaves (lowers_stmt lower locals s).run (runs means locals s) }
{}

/// The statements of a function's body, one behind the other.
pub fn bodies_do()
    ensures { (m : Module) (input : Input) (sections : Sections) (f : Frame m input sections) (p : Program) (around : Around) (lower : lowering.Setting) (means : meaning.Setting) (locals : List Ty) (exits : Exits) (ss : List Stmt) → AlongAllLowered (AsksAt m input sections f p around lower means locals) (with_exits exits (up_to_jump ss)) → DoesStatement m input sections f p around (any_leaves (map (λ (s : LowerStmt). s.leaves) (map (lowers_stmt lower locals) ss))) (in_turn (map (lowers_stmt lower locals) ss)) (runs_all means locals ss) }
{}
