//! Laws of the definitions: calls that do nothing, whose contracts are the laws.

ghost use Rattle.std.specs.Prelude.{◌≡◌, ℕ, List, None};
ghost use Rattle.gsl_base.specs.declared.input.Input.{Input};
ghost use Rattle.gsl_instr.specs.declared.op.TheConstants as op;
ghost use Rattle.gsl_words.specs.declared.module.Module.{Module};
ghost use Rattle.gsl_values.specs.declared.value.Value.{Value};
ghost use Rattle.gsl_tree.specs.Around.{Around};
ghost use Rattle.gsl_tree.specs.declared.program.Program.{Program};
ghost use Rattle.gsl_meaning.specs.State as shader;
ghost use Rattle.gsl_machine.specs.State.{State};
ghost use Rattle.gsl_spv.specs.Sections.{Sections};
ghost use Rattle.gsl_lower_holders.specs.Flow.{Flow, Gives, giving_here};
ghost use Rattle.gsl_lower_law_stmt.specs.OfFollows.{Reaches};
ghost use Rattle.gsl_lower_law_stmt.specs.OfFollows.{Frame, Good, Inside, coming};
ghost use Rattle.gsl_lower_law_stmt.specs.Doing.{AtReturn};
ghost use Rattle.gsl_lower_law_returns.specs.Calling.{AreAlike, IsBack, IsCalled};

/// Where a function that was called comes to its return, one instruction leads back behind the call: the caller has its own ids and variables again, beside
/// what the function has left of the module's variables, of buffers and of choices.
pub fn functions_return()
    ensures { (m : Module) (input : Input) (whole : Sections) (f g : Frame m input whole) (p : Program) (around inner : Around) (b later : Flow) (operands : List ℕ) (type id first : ℕ) (s t : shader.State) (state last : State) (v : Value) (units : ℕ) → AreAlike around inner → Good m input whole f p around b s state → giving_here op.FUNCTION_CALL operands type b ≡ Gives id later → Inside m input whole f later.sections → f.own id ≡ None → IsCalled m input whole f g first id state (coming m input whole f later.sections) → AtReturn m input whole g p inner v t last → Reaches m input 0 units last (IsBack m input whole f g p around first id state later s v t) units }
{}
