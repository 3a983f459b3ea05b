//! Laws of what the checker answers: calls that do nothing, whose contracts are the laws.

ghost use Rattle.std.specs.Prelude.{◌≡◌, List, length, Ok};
ghost use Rattle.std.specs.List.{AllByRecursion};
ghost use Rattle.gsl_syntax.specs.declared.expr.Expr.{Expr as Phrase};
ghost use Rattle.gsl_syntax.specs.declared.declaration.Init.{Init};
ghost use Rattle.gsl_syntax.specs.declared.statement.Stmt.{Stmt as Statement};
ghost use Rattle.gsl_types.specs.Known.{IsSound};
ghost use Rattle.gsl_types.specs.declared.ty.Ty.{Ty};
ghost use Rattle.gsl_tree.specs.declared.stmt.Stmt.{Stmt};
ghost use Rattle.gsl_tree.specs.Trees.{AlongAll, with_exits};
ghost use Rattle.gsl_tree.specs.Statements.{IsStep};
ghost use Rattle.gsl_tree.specs.WellTyped.{IsResult};
ghost use Rattle.gsl_typing.specs.declared.scene.Part.{Part};
ghost use Rattle.gsl_typing.specs.declared.scene.Scene.{Scene};
ghost use Rattle.gsl_values.specs.declared.value.Value.{Value};
ghost use Rattle.gsl_tree.specs.declared.expr.Expr.{Expr};
ghost use Rattle.gsl_tree.specs.declared.folded.Folded.TheVariants.{Known};
ghost use Rattle.gsl_tree.specs.Constants.{constant_of};
ghost use Rattle.gsl_tree.specs.Expressions.{IsExpr};
ghost use Rattle.gsl_typing.specs.Scene.{around};
ghost use Rattle.gsl_check_expr.specs.declared.env.Env.{Env};
ghost use Rattle.gsl_check_expr.specs.Expressions.{expression, taken_expression};
ghost use Rattle.gsl_check_expr.specs.Initialisers.{value_as};
ghost use Rattle.gsl_check_stmt.specs.declared.within.Within.{Within};
ghost use Rattle.gsl_check_stmt.specs.Statements.{statements};
ghost use Rattle.gsl_base.specs.declared.stage.Stage.{Stage};
ghost use Rattle.gsl_syntax.specs.declared.statement.Global.{Global};
ghost use Rattle.gsl_tree.specs.declared.unit.TypedUnit.{TypedUnit};
ghost use Rattle.gsl_tree.specs.WellTyped.{IsUnit};
ghost use Rattle.gsl_check.specs.Units.{checked};
ghost use Rattle.gsl_formed.specs.Formed.{IsFormed, IsFormedInit, IsFormedStmt, IsParsed};
ghost use Rattle.gsl_check_law.specs.Labels.{exits_of};
ghost use Rattle.gsl_check_law.specs.Parts.{IsPart, IsTaken};
ghost use Rattle.gsl_check_law.specs.Scenes.{IsEnv, IsScene};
ghost use Rattle.gsl_check_law.specs.Small.{IsCountedScene, IsSmall};

/// What an expression stands for is well typed in the scene in which it was asked, and so is what is taken of it, which is not copied
/// whole where it has many leaves.
pub fn expressions_are_well_typed()
    ensures whole { (env : Env) (e : Phrase) (x : Part) → IsEnv env → IsFormed e → expression env e ≡ Ok x → IsPart env.scene x }
    ensures taken { (env : Env) (e : Phrase) (x : Part) → IsEnv env → IsFormed e → taken_expression env e ≡ Ok x → IsTaken env.scene x }
{}

/// What an initialiser gives where a value of a type is needed is well typed too.
pub fn initialisers_are_well_typed()
    ensures { (env : Env) (init : Init) (t : Ty) (x : Part) → IsEnv env → IsFormedInit init → IsSound (length env.scene.structs) t → value_as env init t ≡ Ok x → IsTaken env.scene x }
{}

/// What statements stand for, as the body of a function of a result has them, is well typed in what is declared behind them, and what is
/// declared behind them is sound as what was declared before.
pub fn statements_are_well_typed()
    ensures typed { (env : Env) (result : Ty) (all : List Statement) (within : Within) (done : List Stmt × Env) → IsEnv env → IsResult env.scene.structs result → AllByRecursion IsFormedStmt all → statements result all within env ≡ Ok done → AlongAll (IsStep (around done.1.scene) result) (with_exits (exits_of within) done.0) }
    ensures behind { (env : Env) (result : Ty) (all : List Statement) (within : Within) (done : List Stmt × Env) → IsEnv env → IsResult env.scene.structs result → AllByRecursion IsFormedStmt all → statements result all within env ≡ Ok done → IsEnv done.1 }
{}

/// What a constant expression gives has words below 2^32 alone, where arrays in the types of its scene have as many elements as a word
/// counts, and known variables have words.
pub fn constants_are_words()
    ensures { (scene : Scene) (e : Expr) (v : Value) → IsScene scene → IsCountedScene scene → IsExpr (around scene) e → constant_of scene.consts e ≡ Known v → IsSmall v }
{}

/// The typed unit that the checker answers for a unit that a parser gives is well typed.
pub fn units_are_well_typed()
    ensures { (stage : Stage) (unit : List Global) (typed : TypedUnit) → IsParsed unit → checked stage unit ≡ Ok typed → IsUnit stage typed }
{}
