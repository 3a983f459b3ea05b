//! Laws of the definitions: calls that do nothing, whose contracts are the laws.

ghost use Rattle.std.specs.Prelude.{◌<◌, ◌≤◌, ℕ, false, [], ◌∷◌};
ghost use Rattle.gsl_base.specs.declared.input.Input.{Input};
ghost use Rattle.gsl_types.specs.declared.ty.Scalar.{Scalar};
ghost use Rattle.gsl_words.specs.declared.module.Module.{Module};
ghost use Rattle.gsl_values.specs.declared.function.Builtin.TheVariants.{Mix};
ghost use Rattle.gsl_values.specs.declared.op.BinaryOp.{BinaryOp};
ghost use Rattle.gsl_values.specs.declared.value.Value.{Value};
ghost use Rattle.gsl_values.specs.declared.value.Value.TheVariants.{Word};
ghost use Rattle.gsl_tree.specs.Operations.{binary_value, builtin_value, is_signed_scalar, step_value};
ghost use Rattle.gsl_tree.specs.Shapes.{Shape};
ghost use Rattle.gsl_tree.specs.declared.expr.LogicOp.{LogicOp};
ghost use Rattle.gsl_tree.specs.declared.expr.StepOp.{StepOp};
ghost use Rattle.gsl_lower_law.specs.OfMachine.{State};
ghost use Rattle.gsl_lower_law.specs.OfSpv.{Sections};
ghost use Rattle.gsl_lower_values.specs.Operators.{binary, converted, logical, selected, stepped};
ghost use Rattle.gsl_lower_values.specs.declared.operand.Operand.{Operand};
ghost use Rattle.gsl_lower_law.specs.Computing.{Computes};
ghost use Rattle.gsl_lower_law.specs.Operands.{Fit, converted_value, logic_answer};
ghost use Rattle.gsl_lower_law.specs.Values.{IsOf, Stands};

/// An operator on two values: each component draws in its order where the language leaves it open.
pub fn binary_computes()
    ensures { (m : Module) (input : Input) (whole : Sections) (which : BinaryOp) (a b : Operand) (v w : Value) (state : State) (before : Sections) → IsOf a.shape v → IsOf b.shape w → 1 ≤ a.shape.1 → 1 ≤ b.shape.1 → Fit which a.shape.1 b.shape.1 → Stands state.ids a.id v → Stands state.ids b.id w → Computes m input whole (binary_value which (is_signed_scalar a.shape.0) v w state.choices) state before (binary which a b) }
{}

/// A conversion to a scalar type, component by component.
pub fn converted_computes()
    ensures { (m : Module) (input : Input) (whole : Sections) (to : Scalar) (a : Operand) (v : Value) (state : State) (before : Sections) → IsOf a.shape v → Stands state.ids a.id v → Computes m input whole (converted_value to v, state.choices) state before (converted to a) }
{}

/// What `++` and `--` make of a value.
pub fn stepped_computes()
    ensures { (m : Module) (input : Input) (whole : Sections) (which : StepOp) (a : Operand) (v : Value) (state : State) (before : Sections) → IsOf a.shape v → Stands state.ids a.id v → Computes m input whole (step_value which v, state.choices) state before (stepped which a) }
{}

/// A logical operator on two truth values that are both there.
pub fn logical_computes()
    ensures { (m : Module) (input : Input) (whole : Sections) (which : LogicOp) (a b x y : ℕ) (state : State) (before : Sections) → x < 2 → y < 2 → Stands state.ids a (Word x) → Stands state.ids b (Word y) → Computes m input whole (Word (logic_answer which x y), state.choices) state before (logical which a b) }
{}

/// One of two values by a condition, component by component: the second where that is false.
pub fn selected_computes()
    ensures { (m : Module) (input : Input) (whole : Sections) (shape : Shape) (condition a b : ℕ) (truths v w : Value) (state : State) (before : Sections) → Stands state.ids condition truths → Stands state.ids a v → Stands state.ids b w → Computes m input whole ((builtin_value Mix false (w ∷ v ∷ truths ∷ []) []).0, state.choices) state before (selected shape condition a b) }
{}
