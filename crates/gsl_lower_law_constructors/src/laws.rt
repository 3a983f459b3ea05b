//! Laws of the definitions: calls that do nothing, whose contracts are the laws.

ghost use Rattle.std.specs.Prelude.{◌≤◌, List};
ghost use Rattle.gsl_base.specs.declared.input.Input.{Input};
ghost use Rattle.gsl_words.specs.declared.module.Module.{Module};
ghost use Rattle.gsl_values.specs.declared.value.Value.{Value};
ghost use Rattle.gsl_tree.specs.Operations.{build_value};
ghost use Rattle.gsl_tree.specs.Shapes.{Shape, of_shape};
ghost use Rattle.gsl_lower_law_operators.specs.OfMachine.{State};
ghost use Rattle.gsl_spv.specs.Sections.{Sections};
ghost use Rattle.gsl_lower_values.specs.Constructors.{built};
ghost use Rattle.gsl_lower_values.specs.declared.operand.Operand.{Operand};
ghost use Rattle.gsl_lower_law_operators.specs.OfLaw.{Computes};
ghost use Rattle.gsl_lower_law_operators.specs.OfLaw.{AllStand};
ghost use Rattle.gsl_lower_law_constructors.specs.Supply.{Serve};

/// A constructor of a scalar or vector from arguments that serve all of its components.
pub fn built_computes()
    ensures { (m : Module) (input : Input) (whole : Sections) (shape : Shape) (args : List Operand) (vs : List Value) (state : State) (before : Sections) → 1 ≤ shape.1 → Serve shape.1 args → AllStand state.ids args vs → Computes m input whole (build_value (of_shape shape) vs, state.choices) state before (built shape args) }
{}
