//! Laws of the definitions: calls that do nothing, whose contracts are the laws.

ghost use Rattle.std.specs.Prelude.{◌≡◌, ◌||◌, Bool, true};
ghost use Rattle.gsl_base.specs.declared.input.Input.{Input};
ghost use Rattle.gsl_words.specs.declared.module.Module.{Module};
ghost use Rattle.gsl_values.specs.declared.op.BinaryOp.{BinaryOp};
ghost use Rattle.gsl_values.specs.declared.value.Value.{Value};
ghost use Rattle.gsl_tree.specs.Around.{Around};
ghost use Rattle.gsl_tree.specs.Operations.{binary_value, is_postfix, is_signed, step_value};
ghost use Rattle.gsl_tree.specs.declared.expr.StepOp.{StepOp};
ghost use Rattle.gsl_tree.specs.declared.program.Program.{Program};
ghost use Rattle.gsl_meaning.specs.Accesses.{Access};
ghost use Rattle.gsl_meaning.specs.Running.{Run};
ghost use Rattle.gsl_spv.specs.Sections.{Sections};
ghost use Rattle.gsl_lower_expr.specs.Parts.{Lower, assigned, stepped, updated};
ghost use Rattle.gsl_lower_follows.specs.Frames.{Frame};
ghost use Rattle.gsl_lower_follows.specs.Giving.{GivesValue};
ghost use Rattle.gsl_lower_law_stored.specs.Buffers.{KnowsBuffers};
ghost use Rattle.gsl_lower_reaching.specs.Reaching.{GivesPlace, Start};
ghost use Rattle.gsl_lower_reaching.specs.Reaching.Start.{OfBlock};
ghost use Rattle.gsl_lower_assigns.specs.Assigning.{Assigns, assign_means};
ghost use Rattle.gsl_lower_assigns.specs.Updating.{IsStepped, Updates, step_means, update_means};

/// An assignment stores the value of the right side where the left side leads, and gives that value. What the left side leads to is found first, and waits where the right side
/// has blocks. Where it leads out of bounds, the module strays: before the right side where that calls functions, and else behind it.
pub fn places_are_assigned()
    ensures { (m : Module) (input : Input) (sections : Sections) (f : Frame m input sections) (p : Program) (around : Around) (loose : Start) (splits : Bool) (a b : Lower) (left : Run Access) (right : Run Value) → (loose ≡ OfBlock → KnowsBuffers m input sections f p) → Assigns p a b right → GivesPlace m input sections f p around splits loose true a.ty a.reach left → GivesValue m input sections f p around b.traits.splits b.ty b.value right → GivesValue m input sections f p around (splits || b.traits.splits) a.ty (assigned p.structs a b) (assign_means left right) }
{}

/// An assignment by an operator reads the old value where the left side leads, then evaluates the right side, and stores there what the operator gives, which is its value. What is read,
/// and where, waits where the right side has blocks. Where the left side leads out of bounds, the module strays before the right side.
pub fn places_are_updated()
    ensures { (m : Module) (input : Input) (sections : Sections) (f : Frame m input sections) (p : Program) (around : Around) (loose : Start) (splits : Bool) (which : BinaryOp) (a b : Lower) (left : Run Access) (right : Run Value) → (loose ≡ OfBlock → KnowsBuffers m input sections f p) → Updates p around which a.ty b.ty → GivesPlace m input sections f p around splits loose true a.ty a.reach left → GivesValue m input sections f p around b.traits.splits b.ty b.value right → GivesValue m input sections f p around (splits || b.traits.splits) a.ty (updated p.structs which a b) (update_means p.structs a.ty left right (binary_value which (is_signed a.ty))) }
{}

/// `++` and `--` store one more or one less where an expression leads, and give the value that was there before, or the new one. Where it leads out of bounds, the module strays.
pub fn places_are_stepped()
    ensures { (m : Module) (input : Input) (sections : Sections) (f : Frame m input sections) (p : Program) (around : Around) (loose : Start) (splits : Bool) (which : StepOp) (a : Lower) (left : Run Access) → (loose ≡ OfBlock → KnowsBuffers m input sections f p) → IsStepped p a.ty which → GivesPlace m input sections f p around splits loose true a.ty a.reach left → GivesValue m input sections f p around splits a.ty (stepped p.structs which a) (step_means p.structs a.ty left (step_value which) (is_postfix which)) }
{}
