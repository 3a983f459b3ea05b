//! Laws of the definitions: calls that do nothing, whose contracts are the laws.

ghost use Rattle.std.specs.Prelude.{◌≡◌, ◌≢◌, ℕ, Bool, List, Option, Some, None, false, true, map};
ghost use Rattle.gsl_base.specs.declared.input.Input.{Input};
ghost use Rattle.gsl_types.specs.declared.ty.Ty.{Ty};
ghost use Rattle.gsl_types.specs.declared.ty.Ty.TheVariants.{Void};
ghost use Rattle.gsl_words.specs.declared.module.Module.{Module};
ghost use Rattle.gsl_values.specs.declared.value.Value.{Value};
ghost use Rattle.gsl_tree.specs.Around.{Around};
ghost use Rattle.gsl_tree.specs.declared.program.Program.{Program};
ghost use Rattle.gsl_meaning.specs.Accesses as access;
ghost use Rattle.gsl_meaning.specs.Running.{Run, given as shader_given};
ghost use Rattle.gsl_meaning.specs.Statements as statement;
ghost use Rattle.gsl_meaning.specs.Statements.{Normal, Broke, Continued, Returned};
ghost use Rattle.gsl_spv.specs.Sections.{Sections};
ghost use Rattle.gsl_lower_holders.specs.Flow.{Emit, given};
ghost use Rattle.gsl_lower_needs.specs.Bodies.{any_leaves};
ghost use Rattle.gsl_lower_stmt.specs.Lowering.{forked};
ghost use Rattle.gsl_lower_stmt.specs.Parts.{LowerStmt, in_turn, leave_by, returned};
ghost use Rattle.gsl_lower_follows.specs.Frames as name;
ghost use Rattle.gsl_lower_follows.specs.Frames.{Frame};
ghost use Rattle.gsl_lower_follows.specs.Giving.{GivesValue};
ghost use Rattle.gsl_lower_law_names.specs.Named.{IsNamed};
ghost use Rattle.gsl_lower_law_stmt.specs.Doing.{DoesStatement, EachDoes, declared, declared_means, evaluated, evaluated_means, forked_means, returned_means};

/// An empty statement.
pub fn nothing_does()
    ensures { (m : Module) (input : Input) (sections : Sections) (f : Frame m input sections) (p : Program) (around : Around) → DoesStatement m input sections f p around false (λ exits. given tt) (shader_given Normal) }
{}

/// An expression whose value is not used.
pub fn expressions_are_evaluated()
    ensures { (m : Module) (input : Input) (sections : Sections) (f : Frame m input sections) (p : Program) (around : Around) (splits : Bool) (ty : Ty) (emit : Emit ℕ) (x : Run Value) → GivesValue m input sections f p around splits ty emit x → DoesStatement m input sections f p around false (evaluated emit) (evaluated_means x) }
{}

/// A local variable begins with the value of its initialiser, whatever its type.
pub fn variables_are_declared()
    ensures { (m : Module) (input : Input) (sections : Sections) (f : Frame m input sections) (p : Program) (around : Around) (number : ℕ) (t : Ty) → IsNamed p around (name.Local number) t → (splits : Bool) (emit : Emit ℕ) (y : Run Value) → GivesValue m input sections f p around splits t emit y → DoesStatement m input sections f p around false (declared number emit) (declared_means number y) }
{}

/// Statements one behind the other, of which those behind one that leaves are dropped.
pub fn statements_follow_each_other()
    ensures { (m : Module) (input : Input) (sections : Sections) (f : Frame m input sections) (p : Program) (around : Around) (ss : List LowerStmt) (runs : List (Run statement.Flow)) → EachDoes m input sections f p around ss runs → DoesStatement m input sections f p around (any_leaves (map (λ (s : LowerStmt). s.leaves) ss)) (in_turn ss) (statement.in_turn runs) }
{}

/// `if`: the way that its value chooses, and both meet behind it.
pub fn choices_are_made()
    ensures { (m : Module) (input : Input) (sections : Sections) (f : Frame m input sections) (p : Program) (around : Around) (first other : LowerStmt) (x y : Run statement.Flow) → DoesStatement m input sections f p around first.leaves first.run x → DoesStatement m input sections f p around other.leaves other.run y → (splits : Bool) (ty : Ty) (test : Emit ℕ) (z : Run Value) → ty ≢ Void → GivesValue m input sections f p around splits ty test z → DoesStatement m input sections f p around false (forked test first other) (forked_means z x y) }
{}

/// `return`, with a value of the type that the function gives, and without where it gives nothing.
pub fn functions_are_left()
    ensures with_value { (m : Module) (input : Input) (sections : Sections) (f : Frame m input sections) (p : Program) (around : Around) (splits : Bool) (ty : Ty) (emit : Emit ℕ) (x : Run Value) → GivesValue m input sections f p around splits ty emit x → ty ≢ Void → ty ≡ f.result → DoesStatement m input sections f p around true (λ exits. returned (Some emit)) (returned_means x) }
    ensures without { (m : Module) (input : Input) (sections : Sections) (f : Frame m input sections) (p : Program) (around : Around) → f.result ≡ Void → DoesStatement m input sections f p around true (λ exits. returned None) (shader_given (Returned access.nothing)) }
{}

/// `break` and `continue`.
pub fn loops_are_left()
    ensures broke { (m : Module) (input : Input) (sections : Sections) (f : Frame m input sections) (p : Program) (around : Around) → DoesStatement m input sections f p around true (λ exits. leave_by exits.break_to) (shader_given Broke) }
    ensures continued { (m : Module) (input : Input) (sections : Sections) (f : Frame m input sections) (p : Program) (around : Around) → DoesStatement m input sections f p around true (λ exits. leave_by exits.continue_to) (shader_given Continued) }
{}
