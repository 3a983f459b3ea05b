//! Laws of the definitions: calls that do nothing, whose contracts are the laws.

ghost use Rattle.std.specs.Prelude.{◌≡◌, ◌≤◌, List, Some};
ghost use Rattle.std.specs.List.{AllByRecursion};
ghost use Rattle.gsl_base.specs.declared.input.Input.{Input};
ghost use Rattle.gsl_words.specs.declared.module.Module.{Module};
ghost use Rattle.gsl_values.specs.declared.function.Builtin.{Builtin};
ghost use Rattle.gsl_values.specs.declared.value.Value.{Value};
ghost use Rattle.gsl_tree.specs.Operations.{builtin_value};
ghost use Rattle.gsl_tree.specs.Shapes.{Shape, built_shape};
ghost use Rattle.gsl_machine.specs.State.{State};
ghost use Rattle.gsl_spv.specs.Sections.{Sections};
ghost use Rattle.gsl_lower_values.specs.Builtins.{called};
ghost use Rattle.gsl_lower_values.specs.declared.operand.Operand.{Operand};
ghost use Rattle.gsl_lower_law.specs.Computing.{Computes};
ghost use Rattle.gsl_lower_law.specs.Operands.{AllStand, first_signed, shapes_of};

/// A built-in function on arguments of shapes that it takes: a bit field draws, component by component, where the language leaves it open.
pub fn called_computes()
    ensures { (m : Module) (input : Input) (whole : Sections) (which : Builtin) (args : List Operand) (vs : List Value) (shape : Shape) (state : State) (before : Sections) → built_shape which (shapes_of args) ≡ Some shape → AllByRecursion (λ a. 1 ≤ a.shape.1) args → AllStand state.ids args vs → Computes m input whole (builtin_value which (first_signed args) vs state.choices) state before (called which args) }
{}
