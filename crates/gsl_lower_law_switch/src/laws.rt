//! Laws of the definitions: calls that do nothing, whose contracts are the laws.

ghost use Rattle.std.specs.Prelude.{◌≢◌, ℕ, Bool, false, List};
ghost use Rattle.gsl_base.specs.declared.input.Input.{Input};
ghost use Rattle.gsl_types.specs.declared.ty.Ty.{Ty};
ghost use Rattle.gsl_types.specs.declared.ty.Ty.TheVariants.{Void};
ghost use Rattle.gsl_words.specs.declared.module.Module.{Module};
ghost use Rattle.gsl_values.specs.declared.value.Value.{Value};
ghost use Rattle.gsl_tree.specs.Around.{Around};
ghost use Rattle.gsl_tree.specs.declared.program.Program.{Program};
ghost use Rattle.gsl_meaning.specs.Running.{Run};
ghost use Rattle.gsl_meaning.specs.Statements.{Arm};
ghost use Rattle.gsl_spv.specs.Sections.{Sections};
ghost use Rattle.gsl_lower_holders.specs.Flow.{Emit};
ghost use Rattle.gsl_lower_stmt.specs.Lowering.{switched};
ghost use Rattle.gsl_lower_stmt.specs.Parts.{LowerArm};
ghost use Rattle.gsl_lower_follows.specs.Frames.{Frame};
ghost use Rattle.gsl_lower_follows.specs.Giving.{GivesValue};
ghost use Rattle.gsl_lower_law_stmt.specs.Doing.{DoesStatement};
ghost use Rattle.gsl_lower_law_switch.specs.Choosing.{AreArms, switched_means};

/// `switch`: the arm with the label of its value, or else the default, or neither; each arm falls through to the next.
pub fn switches_choose()
    ensures { (m : Module) (input : Input) (sections : Sections) (f : Frame m input sections) (p : Program) (around : Around) (arms : List LowerArm) (means : List Arm) → AreArms m input sections f p around arms means → (splits : Bool) (ty : Ty) (value : Emit ℕ) (y : Run Value) → ty ≢ Void → GivesValue m input sections f p around splits ty value y → DoesStatement m input sections f p around false (switched value arms) (switched_means y means) }
{}
