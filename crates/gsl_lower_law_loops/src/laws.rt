//! Laws of the definitions: calls that do nothing, whose contracts are the laws.

ghost use Rattle.std.specs.Prelude.{ℕ, Bool, false, Option};
ghost use Rattle.gsl_base.specs.declared.input.Input.{Input};
ghost use Rattle.gsl_words.specs.declared.module.Module.{Module};
ghost use Rattle.gsl_values.specs.declared.value.Value.{Value};
ghost use Rattle.gsl_tree.specs.Around.{Around};
ghost use Rattle.gsl_tree.specs.declared.program.Program.{Program};
ghost use Rattle.gsl_meaning.specs.Running.{Run};
ghost use Rattle.gsl_meaning.specs.Statements as statement;
ghost use Rattle.gsl_spv.specs.Sections.{Sections};
ghost use Rattle.gsl_lower_holders.specs.Flow.{Emit};
ghost use Rattle.gsl_lower_stmt.specs.Parts.{LowerStmt, looped};
ghost use Rattle.gsl_lower_follows.specs.Frames.{Frame};
ghost use Rattle.gsl_lower_law_stmt.specs.Doing.{DoesStatement};
ghost use Rattle.gsl_lower_law_loops.specs.Looping.{ForBoth, IsStep, IsTest, looped_means};

/// Loops of all three kinds, with `break`, `continue` and `return` in them: as many turns as there are.
pub fn loops_turn()
    ensures { (m : Module) (input : Input) (sections : Sections) (f : Frame m input sections) (p : Program) (around : Around) (body : LowerStmt) (x : Run statement.Flow) → DoesStatement m input sections f p around body.leaves body.run x → (test step : Option (Emit ℕ)) (y z : Option (Run Value)) → ForBoth (IsTest m input sections f p around) test y → ForBoth (IsStep m input sections f p around) step z → (last : Bool) → DoesStatement m input sections f p around false (λ exits. looped last test step body) (looped_means last y z x) }
{}
