//! Laws of the definitions: calls that do nothing, whose contracts are the laws.

ghost use Rattle.gsl_tree.specs.Around.{Around};
ghost use Rattle.gsl_tree.specs.Constants.{constant_of};
ghost use Rattle.gsl_tree.specs.Expressions.{IsExpr};
ghost use Rattle.gsl_tree.specs.Trees.{type_of};
ghost use Rattle.gsl_tree.specs.Values.{is_value_of};
ghost use Rattle.gsl_tree.specs.WellTyped.{AreWellTyped, Lists, around_init};
ghost use Rattle.gsl_tree.specs.declared.expr.Expr.{Expr};
ghost use Rattle.gsl_tree.specs.declared.folded.Consts.{Consts};
ghost use Rattle.gsl_tree.specs.declared.folded.Folded.TheVariants.{Known};
ghost use Rattle.gsl_tree.specs.declared.unit.GlobalVar.{GlobalVar};
ghost use Rattle.gsl_typed_constants.specs.Known.{AreKnown, AreSound};
ghost use Rattle.gsl_types.specs.Known.{AreStructs};
ghost use Rattle.gsl_values.specs.declared.value.Value.{Value};
ghost use Rattle.std.specs.Prelude.{Some, slice_get, true, ℕ, ◌≡◌};

/// What a well typed constant expression is known to give is a value of its type (GLSL 4.50, 4.3.3), where the variables that are known have values of their types.
pub fn constants_have_their_types()
    ensures { (around : Around) (consts : Consts) → AreStructs around.structs → AreSound around → AreKnown around consts → (e : Expr) (v : Value) → IsExpr around e → constant_of consts e ≡ Known v → is_value_of around.structs (type_of e) v ≡ true }
{}

/// The value with which a global variable is initialised is one of its type (GLSL 4.50, 4.3.1).
pub fn initialisers_have_their_types()
    ensures { (lists : Lists) → AreWellTyped lists → AreSound (around_init lists) → (number : ℕ) (g : GlobalVar) (v : Value) → slice_get lists.globals number ≡ Some g → g.value ≡ Some v → is_value_of lists.structs g.ty v ≡ true }
{}
