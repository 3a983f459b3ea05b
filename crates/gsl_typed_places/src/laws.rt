//! Laws of the definitions: calls that do nothing, whose contracts are the laws.

ghost use Rattle.gsl_tree.specs.Expressions.{IsExpr, element_of, is_runtime_layer, is_value_type};
ghost use Rattle.gsl_tree.specs.Paths.{in_block, is_writable};
ghost use Rattle.gsl_tree.specs.Trees.{form_of, type_of};
ghost use Rattle.gsl_tree.specs.Values.{is_value_of};
ghost use Rattle.gsl_tree.specs.WellTyped.{AreWellTyped, IsVariableType, Lists, around_body};
ghost use Rattle.gsl_tree.specs.declared.expr.Expr.{Expr};
ghost use Rattle.gsl_types.specs.Known.{IsSound, is_plain};
ghost use Rattle.gsl_types.specs.declared.ty.Direction.{Direction};
ghost use Rattle.gsl_types.specs.declared.ty.Ty.{Ty};
ghost use Rattle.gsl_types.specs.declared.ty.Ty.TheViews.{out-Ty};
ghost use Rattle.gsl_values.specs.declared.value.Value.{Value};
ghost use Rattle.gsl_typed_places.specs.Members.{IsMember};
ghost use Rattle.std.specs.List.{AllByRecursion};
ghost use Rattle.std.specs.Prelude.{IsTrue, List, Some, false, length, true, ◌≡◌, ◌⊎◌};

/// The type of a well typed expression that may be written (GLSL 4.50, 5.8) has a value, unless it is `void` or a runtime array: no type of a variable, a parameter or a member has those in it.
pub fn places_have_values()
    ensures { (lists : Lists) (params : List (Direction × Ty)) (locals : List Ty) → AreWellTyped lists → AllByRecursion (λ (param : Direction × Ty). IsVariableType lists.structs param.1) params → AllByRecursion (IsVariableType lists.structs) locals → (e : Expr) → IsExpr (around_body lists params locals) e → is_writable (around_body lists params locals) e ≡ true → IsSound (length lists.structs) (type_of e) → IsTrue (is_value_type (type_of e)) → (v : Value) × (is_value_of lists.structs (type_of e) v ≡ true) }
{}

/// The type of a well typed expression into which an index may go (GLSL 4.50, 5.5 and 5.7) has a value, or the expression is the name of a member of a block: nothing else is a runtime array.
pub fn indexed_have_values()
    ensures { (lists : Lists) (params : List (Direction × Ty)) (locals : List Ty) → AreWellTyped lists → AllByRecursion (λ (param : Direction × Ty). IsVariableType lists.structs param.1) params → AllByRecursion (IsVariableType lists.structs) locals → (e : Expr) → IsExpr (around_body lists params locals) e → IsSound (length lists.structs) (type_of e) → (t : Ty) → element_of (type_of e) ≡ Some t → ((v : Value) × (is_value_of lists.structs (type_of e) v ≡ true)) ⊎ IsMember (form_of e) }
{}

/// The type of a member of a block, or of a part of one, is made of values alone, unless it is a runtime array.
pub fn parts_of_blocks_are_plain()
    ensures { (lists : Lists) (params : List (Direction × Ty)) (locals : List Ty) → AreWellTyped lists → AllByRecursion (λ (param : Direction × Ty). IsVariableType lists.structs param.1) params → AllByRecursion (IsVariableType lists.structs) locals → (e : Expr) → IsExpr (around_body lists params locals) e → in_block e ≡ true → is_runtime_layer (out-Ty (type_of e)) ≡ false → IsTrue (is_plain (type_of e)) }
{}
