//! Laws of the definitions: calls that do nothing, whose contracts are the laws.

ghost use Rattle.std.specs.Prelude.{◌≡◌, ◌≤◌, Bool, IsTrue, List, ℕ, Some, false, length, map, true};
ghost use Rattle.std.specs.List.{AllByRecursion};
ghost use Rattle.gsl_tree.specs.Around.{Around};
ghost use Rattle.gsl_tree.specs.Expressions.{IsBinary, IsBuild, IsBuilt, IsSwizzle, IsUnary, types_of};
ghost use Rattle.gsl_tree.specs.Operations.{binary_value, build_value, builtin_value, step_value, swizzle_value, unary_value, value_at, with_value_at};
ghost use Rattle.gsl_tree.specs.Shapes.{Shape, is_integer, shape_of};
ghost use Rattle.gsl_tree.specs.Values.{all_pass, is_value_of, zero_value};
ghost use Rattle.gsl_tree.specs.WellTyped.{IsStructDeclared};
ghost use Rattle.gsl_tree.specs.declared.expr.Expr.{Expr};
ghost use Rattle.gsl_tree.specs.declared.expr.StepOp.{StepOp};
ghost use Rattle.gsl_typed_law.specs.Given.{AreChoices, Gives};
ghost use Rattle.gsl_typed_law.specs.Parts.{LeadsTo};
ghost use Rattle.gsl_typed_law.specs.Plain.{ArePlain};
ghost use Rattle.gsl_types.specs.Conversions.{converts};
ghost use Rattle.gsl_types.specs.Known.{AreStructs, IsSound, is_plain};
ghost use Rattle.gsl_types.specs.declared.ty.StructType.{StructType};
ghost use Rattle.gsl_types.specs.declared.ty.Ty.{Ty};
ghost use Rattle.gsl_values.specs.Operators.{is_free};
ghost use Rattle.gsl_values.specs.declared.function.Builtin.{Builtin};
ghost use Rattle.gsl_values.specs.declared.lane.Lanes.{Lanes};
ghost use Rattle.gsl_values.specs.declared.op.BinaryOp.{BinaryOp};
ghost use Rattle.gsl_values.specs.declared.op.UnaryOp.{UnaryOp};
ghost use Rattle.gsl_values.specs.declared.value.Value.{Value};

/// An operator on values of its operands' types gives a value of its own type (GLSL 4.50, 5.9), whatever is drawn where the language leaves a
/// component open, since choices are words; an operator that leaves nothing open does so by any choices.
pub fn operators_give_values()
    ensures unary { (structs : List StructType) (op : UnaryOp) (a t : Ty) (v : Value) → IsUnary op a t → is_value_of structs a v ≡ true → is_value_of structs t (unary_value op v) ≡ true }
    ensures binary { (around : Around) (op : BinaryOp) (signed : Bool) (a b t : Ty) (v w : Value) (choices : List ℕ) → IsSound (length around.structs) a → IsSound (length around.structs) b → IsBinary around op a b t → is_value_of around.structs a v ≡ true → is_value_of around.structs b w ≡ true → AreChoices choices → Gives around.structs t (binary_value op signed v w choices) }
    ensures undrawn { (around : Around) (op : BinaryOp) (signed : Bool) (a b t : Ty) (v w : Value) (choices : List ℕ) → ((x y : ℕ) → is_free op signed x y ≡ false) → IsSound (length around.structs) a → IsSound (length around.structs) b → IsBinary around op a b t → is_value_of around.structs a v ≡ true → is_value_of around.structs b w ≡ true → is_value_of around.structs t (binary_value op signed v w choices).0 ≡ true }
{}

/// A value of a type is one of the type to which it converts implicitly, and back (GLSL 4.50, 4.1.10): an `int` and a `uint` have the same words. What
/// `++` and `--` make of a value of a type is one of the type.
pub fn conversions_and_steps_keep_types()
    ensures converts { (structs : List StructType) (from to : Ty) (v : Value) → IsTrue (converts from to) → is_value_of structs from v ≡ is_value_of structs to v }
    ensures steps { (structs : List StructType) (op : StepOp) (t : Ty) (shape : Shape) (v : Value) → IsSound (length structs) t → shape_of t ≡ Some shape → IsTrue (is_integer shape.0) → is_value_of structs t v ≡ true → is_value_of structs t (step_value op v) ≡ true }
{}

/// The value of a type whose leaves are all zero is one of the type, where neither it nor the structs have a `void` or a runtime array in them; declared structs
/// have none.
pub fn zeros_are_values()
    ensures zero { (structs : List StructType) (t : Ty) → AreStructs structs → ArePlain structs → IsSound (length structs) t → IsTrue (is_plain t) → is_value_of structs t (zero_value structs t) ≡ true }
    ensures declared { (structs : List StructType) → AllByRecursion (IsStructDeclared structs) structs → ArePlain structs }
{}

/// A built-in function on values of its arguments' types gives a value of its own type (GLSL 4.50, 8.3, 8.7 and 8.8), whatever is drawn where the language
/// leaves a component open.
pub fn functions_give_values()
    ensures { (structs : List StructType) (which : Builtin) (signed : Bool) (args : List Expr) (t : Ty) (vs : List Value) (choices : List ℕ) → IsBuilt which args t → all_pass (map (is_value_of structs) (types_of args)) vs ≡ true → AreChoices choices → Gives structs t (builtin_value which signed vs choices) }
{}

/// A constructor of a type from values of its arguments' types gives a value of the type (GLSL 4.50, 5.4 and 4.1.11).
pub fn constructors_give_values()
    ensures { (around : Around) (args : List Expr) (t : Ty) (vs : List Value) → AreStructs around.structs → IsBuild around args t → all_pass (map (is_value_of around.structs) (types_of args)) vs ≡ true → is_value_of around.structs t (build_value t vs) ≡ true }
{}

/// The part of a value of a type to which numbers of members, elements and components lead is one of the type of the part, and with another such part the whole
/// is one of its type (GLSL 4.50, 5.5 to 5.7). A swizzle of a value of a type, whose positions are there, gives a value of its own type.
pub fn parts_are_values()
    ensures part { (structs : List StructType) (base : Ty) (path : List ℕ) (t : Ty) (v : Value) → AreStructs structs → LeadsTo structs base path t → is_value_of structs base v ≡ true → is_value_of structs t (value_at v path) ≡ true }
    ensures with { (structs : List StructType) (base : Ty) (path : List ℕ) (t : Ty) (v new : Value) → AreStructs structs → LeadsTo structs base path t → is_value_of structs base v ≡ true → is_value_of structs t new ≡ true → is_value_of structs base (with_value_at v path new) ≡ true }
    ensures swizzle { (structs : List StructType) (base : Ty) (lanes : Lanes) (t : Ty) (v : Value) → lanes.count ≤ length lanes.words → IsSwizzle base lanes t → is_value_of structs base v ≡ true → is_value_of structs t (swizzle_value v lanes) ≡ true }
{}
