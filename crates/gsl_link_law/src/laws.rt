//! Laws of what units make together: calls that do nothing, whose contracts are the laws.

ghost use Rattle.std.specs.Prelude.{◌≡◌, ◌↔◌, ◌<◌, ℕ, List, length, map, None, Ok, slice_get, Some};
ghost use Rattle.std.specs.List.{AllByRecursion};
ghost use Rattle.gsl_base.specs.declared.stage.Stage.{Stage};
ghost use Rattle.gsl_types.specs.Known.{AreStructs};
ghost use Rattle.gsl_types.specs.Spelling.{spelled};
ghost use Rattle.gsl_types.specs.declared.ty.Ty.TheVariants as ty;
ghost use Rattle.gsl_tree.specs.declared.unit.TypedUnit.{TypedUnit};
ghost use Rattle.gsl_tree.specs.WellTyped.{IsStructDeclared, IsUnit};
ghost use Rattle.gsl_link_units.specs.Structs.{joined_structs, struct_numbers};
ghost use Rattle.gsl_link_units.specs.Types.{new_number, retyped};
ghost use Rattle.gsl_link_whole.specs.Numbers.{Numbering};
ghost use Rattle.gsl_link_whole.specs.Renumbering.{renumbered_expr, renumbered_stmt};
ghost use Rattle.gsl_tree.specs.declared.expr.Expr.{Expr};
ghost use Rattle.gsl_tree.specs.declared.stmt.Stmt.{Stmt};
ghost use Rattle.gsl_types.specs.declared.ty.Ty.{Ty};
ghost use Rattle.gsl_tree.specs.Around.{Around, consts_of};
ghost use Rattle.gsl_tree.specs.Constants.{constant_of};
ghost use Rattle.gsl_tree.specs.Expressions.{IsExpr, MayBeRead};
ghost use Rattle.gsl_tree.specs.Statements.{IsBody, deepest, expr_depth, stmt_depth};
ghost use Rattle.gsl_tree.specs.WellTyped.{IsProgram};
ghost use Rattle.gsl_tree.specs.declared.program.Program.{Program};
ghost use Rattle.gsl_link_whole.specs.Whole.{whole};
ghost use Rattle.gsl_link.specs.Joined.{fault_of, joined};
ghost use Rattle.gsl_link.specs.Units.{AreKnown, AreUnits};
ghost use Rattle.gsl_link_units.specs.Declarations.{sides_of};
ghost use Rattle.gsl_link_law.specs.Placed.{AllPlaced};
ghost use Rattle.gsl_link_law.specs.Renumbered.{HasTypes, IsRenumbered};

/// The structs of well typed units, joined, are well formed, each is declared as a struct of a unit is, and the structs of each
/// unit stand among them under their new numbers.
pub fn structs_are_joined()
    ensures known { (stage : Stage) (units : List TypedUnit) → AllByRecursion (IsUnit stage) units → AreStructs (joined_structs units) }
    ensures declared { (stage : Stage) (units : List TypedUnit) → AllByRecursion (IsUnit stage) units → AllByRecursion (IsStructDeclared (joined_structs units)) (joined_structs units) }
    ensures placed { (stage : Stage) (units : List TypedUnit) → AllByRecursion (IsUnit stage) units → AllPlaced (joined_structs units) (struct_numbers units) units }
{}

/// Well typed units have what the rows of linking ask of them.
pub fn units_may_be_linked()
    ensures { (stage : Stage) (units : List TypedUnit) → AllByRecursion (IsUnit stage) units → AreKnown (joined_structs units) (sides_of units) }
{}

/// Structs of units have one new number exactly where they are spelled alike, each written out with its members (GLSL 4.50, 4.1.8).
pub fn equal_structs_have_one_number()
    ensures { (stage : Stage) (units : List TypedUnit) (i j : ℕ) (numbers others : List ℕ) (unit other : TypedUnit) → AllByRecursion (IsUnit stage) units → slice_get (struct_numbers units) i ≡ Some numbers → slice_get units i ≡ Some unit → slice_get (struct_numbers units) j ≡ Some others → slice_get units j ≡ Some other → (k l : ℕ) → k < length unit.structs → l < length other.structs → (new_number numbers k ≡ new_number others l) ↔ (spelled unit.structs (ty.Struct k) ≡ spelled other.structs (ty.Struct l)) }
{}

/// Where new numbers name what the old ones named, a well typed expression is well typed by the new numbers, may be read where it
/// could be, is as deep, and is constant where it was, of the same value.
pub fn expressions_are_renumbered()
    ensures typed { (n : Numbering) (few many : Around) (e : Expr) → IsRenumbered n few many → HasTypes few → IsExpr few e → IsExpr many (renumbered_expr n e) }
    ensures reads { (n : Numbering) (few many : Around) (e : Expr) → IsRenumbered n few many → HasTypes few → IsExpr few e → MayBeRead few e → MayBeRead many (renumbered_expr n e) }
    ensures depth { (n : Numbering) (few many : Around) (e : Expr) → IsRenumbered n few many → HasTypes few → IsExpr few e → expr_depth (renumbered_expr n e) ≡ expr_depth e }
    ensures constant { (n : Numbering) (few many : Around) (e : Expr) → IsRenumbered n few many → HasTypes few → IsExpr few e → constant_of (consts_of many.globals) (renumbered_expr n e) ≡ constant_of (consts_of few.globals) e }
{}

/// And so is the body of a function, with the type of its result by the new numbers.
pub fn bodies_are_renumbered()
    ensures typed { (n : Numbering) (few many : Around) (result : Ty) (body : List Stmt) → IsRenumbered n few many → HasTypes few → IsBody few result body → IsBody many (retyped n.structs result) (map (renumbered_stmt n) body) }
    ensures depth { (n : Numbering) (few many : Around) (result : Ty) (body : List Stmt) → IsRenumbered n few many → HasTypes few → IsBody few result body → deepest (map stmt_depth (map (renumbered_stmt n) body)) ≡ deepest (map stmt_depth body) }
{}

/// What units that were checked make together, where they have no fault of linking, is a program: well typed, with its blocks in order, and
/// with a `main`.
pub fn linked_units_are_programs()
    ensures joined { (stage : Stage) (units : List TypedUnit) (p : Program) → AreUnits stage units → joined stage units ≡ Ok p → IsProgram p }
    ensures whole { (stage : Stage) (units : List TypedUnit) → AreUnits stage units → fault_of stage units ≡ None → IsProgram (whole stage units) }
{}
