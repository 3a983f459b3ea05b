//! Laws of the definitions: calls that do nothing, whose contracts are the laws.

ghost use Rattle.std.specs.Prelude.{◌≡◌, ◌≢◌, ◌≤◌, ◌||◌, ◌⊎◌, ℕ, List, Some, false, length, true};
ghost use Rattle.gsl_base.specs.declared.input.Input.{Input};
ghost use Rattle.gsl_types.specs.Known.{AreStructs, IsSound};
ghost use Rattle.gsl_types.specs.declared.ty.Scalar.{Scalar};
ghost use Rattle.gsl_types.specs.declared.ty.Ty.{Ty};
ghost use Rattle.gsl_types.specs.declared.ty.Ty.TheVariants.{Void};
ghost use Rattle.gsl_words.specs.declared.module.Module.{Module};
ghost use Rattle.gsl_values.specs.declared.value.Value.{Value};
ghost use Rattle.gsl_values.specs.declared.op.BinaryOp.{BinaryOp};
ghost use Rattle.gsl_values.specs.declared.op.UnaryOp.{UnaryOp};
ghost use Rattle.gsl_tree.specs.Around.{Around};
ghost use Rattle.gsl_tree.specs.Expressions.{boolean};
ghost use Rattle.gsl_tree.specs.Operations.{binary_value, decides, is_signed, unary_value};
ghost use Rattle.gsl_tree.specs.Shapes.{Shape, is_integer, shape_of};
ghost use Rattle.gsl_tree.specs.Values.{is_value_of};
ghost use Rattle.gsl_tree.specs.declared.expr.LogicOp.{LogicOp};
ghost use Rattle.gsl_tree.specs.declared.program.Program.{Program};
ghost use Rattle.gsl_meaning.specs.Expressions.{Meant, binary as means_binary, in_order};
ghost use Rattle.gsl_meaning.specs.State as shader;
ghost use Rattle.gsl_meaning.specs.Running.{Run, given};
ghost use Rattle.gsl_machine.specs.State.{State};
ghost use Rattle.gsl_spv.specs.Sections.{Sections};
ghost use Rattle.gsl_lower_law.specs.Values.{IsOf};
ghost use Rattle.gsl_lower_holders.specs.Flow.{Flow, lift};
ghost use Rattle.gsl_lower_expr.specs.Parts.{Lower, binary, both, constant_by, forked, operands, short};
ghost use Rattle.gsl_lower_follows.specs.Frames.{AreTyped, Frame, Good};
ghost use Rattle.gsl_lower_follows.specs.Giving.{Does, GivesValue, none_waits};
ghost use Rattle.gsl_lower_law_expr.specs.Coded.{converted_code, unary_code};
ghost use Rattle.gsl_lower_law_expr.specs.Known.{AllGive, IsQuiet, IsShort, Operates, choice_means, logic_means, unary_means};
ghost use Rattle.gsl_lower_law_expr.specs.Rows.{HasAll};

/// An operator on the values of two expressions.
pub fn binary_gives()
    ensures { (m : Module) (input : Input) (whole : Sections) (f : Frame m input whole) (p : Program) (around : Around) (which : BinaryOp) (a b : Lower) (ty : Ty) (x y : Run Value) → Operates p around which a.ty b.ty ty → GivesValue m input whole f p around a.traits.splits a.ty a.value x → GivesValue m input whole f p around b.traits.splits b.ty b.value y → GivesValue m input whole f p around (a.traits.splits || b.traits.splits) ty (binary p.structs which a b) (means_binary ty x y (binary_value which (is_signed a.ty))) }
{}

/// A logical operator whose second operand may be evaluated whether it counts or not: both are, and no block ends.
pub fn both_give()
    ensures { (m : Module) (input : Input) (whole : Sections) (f : Frame m input whole) (p : Program) (around : Around) (which : LogicOp) (a b : Lower) (x y : Run Value) → a.ty ≡ boolean → b.ty ≡ boolean → ((word : ℕ) → (decides which word ≡ false) ⊎ IsQuiet (AreTyped m input whole f p around) (is_value_of p.structs boolean) y) → GivesValue m input whole f p around a.traits.splits a.ty a.value x → GivesValue m input whole f p around b.traits.splits b.ty b.value y → GivesValue m input whole f p around (a.traits.splits || b.traits.splits) boolean (both which a b) (logic_means which x y) }
{}

/// `&&` and `||` whose second operand has a block of its own, which is entered where the first does not decide.
pub fn short_gives()
    ensures { (m : Module) (input : Input) (whole : Sections) (f : Frame m input whole) (p : Program) (around : Around) (which : LogicOp) (a b : Lower) (x y : Run Value) → IsShort which → a.ty ≡ boolean → b.ty ≡ boolean → GivesValue m input whole f p around a.traits.splits a.ty a.value x → GivesValue m input whole f p around b.traits.splits b.ty b.value y → GivesValue m input whole f p around true boolean (short which a b) (logic_means which x y) }
{}

/// `?:` whose values have a block each, of which the one that counts is entered.
pub fn forked_gives()
    ensures { (m : Module) (input : Input) (whole : Sections) (f : Frame m input whole) (p : Program) (around : Around) (t : Ty) (test a b : Lower) (c x y : Run Value) → t ≢ Void → test.ty ≡ boolean → a.ty ≡ t → b.ty ≡ t → GivesValue m input whole f p around test.traits.splits test.ty test.value c → GivesValue m input whole f p around a.traits.splits a.ty a.value x → GivesValue m input whole f p around b.traits.splits b.ty b.value y → GivesValue m input whole f p around true t (forked t test a b) (choice_means c x y) }
{}

/// An operator on the value of one expression.
pub fn unary_gives()
    ensures { (m : Module) (input : Input) (whole : Sections) (f : Frame m input whole) (p : Program) (around : Around) (which : UnaryOp) (a : Lower) (ty : Ty) (x : Run Value) → a.ty ≢ Void → ((v : Value) → is_value_of p.structs a.ty v ≡ true → is_value_of p.structs ty (unary_value which v) ≡ true) → GivesValue m input whole f p around a.traits.splits a.ty a.value x → GivesValue m input whole f p around a.traits.splits ty (unary_code which a) (unary_means which x) }
{}

/// A conversion of integers: an `int` and a `uint` have the same words.
pub fn conversion_gives()
    ensures { (m : Module) (input : Input) (whole : Sections) (f : Frame m input whole) (p : Program) (around : Around) (to : Scalar) (shape : Shape) (a : Lower) (ty : Ty) (x : Run Value) → AreStructs p.structs → IsSound (length p.structs) a.ty → a.ty ≢ Void → shape_of a.ty ≡ Some shape → is_integer to ≡ true → ((v : Value) → is_value_of p.structs a.ty v ≡ true → is_value_of p.structs ty v ≡ true) → GivesValue m input whole f p around a.traits.splits a.ty a.value x → GivesValue m input whole f p around a.traits.splits ty (converted_code to a) x }
{}

/// A constant of a scalar or vector type.
pub fn constant_gives()
    ensures { (m : Module) (input : Input) (whole : Sections) (f : Frame m input whole) (p : Program) (around : Around) (shape : Shape) (ty : Ty) (v : Value) → 1 ≤ shape.1 → IsOf shape v → is_value_of p.structs ty v ≡ true → GivesValue m input whole f p around false ty (lift (constant_by shape v)) (given v) }
{}

/// Operands in a row give their values, each of which waits where a later one has blocks.
pub fn operands_give()
    ensures { (m : Module) (input : Input) (whole : Sections) (f : Frame m input whole) (p : Program) (around : Around) (es : List Lower) (xs : List Meant) → AllGive (GivesValue m input whole f p around) es xs → (b : Flow) (s : shader.State) (units : ℕ) (state : State) → Good m input whole f p around b s state → Does m input whole f p 0 units state (HasAll m input whole f p around es b state) none_waits (in_order xs s units) (operands es b) }
{}
