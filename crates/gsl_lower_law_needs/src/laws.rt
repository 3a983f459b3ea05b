//! Laws of the definitions: calls that do nothing, whose contracts are the laws.

ghost use Rattle.std.specs.Prelude.{◌≡◌, ℕ, true, slice_get, Some};
ghost use Rattle.gsl_tree.specs.Trees.{outside, with_exits};
ghost use Rattle.gsl_tree.specs.declared.program.Program.{Program};
ghost use Rattle.gsl_tree.specs.declared.unit.Function.{Function};
ghost use Rattle.gsl_lower_flow.specs.Programs.{program_needs};
ghost use Rattle.gsl_lower_flow.specs.Reaching.{is_lowered};
ghost use Rattle.gsl_lower_used.specs.Lowered.{AlongAllLowered, up_to_jump};
ghost use Rattle.gsl_lower_law_needs.specs.Used.{AreAsked};

/// In each function that is lowered, the program asks for each built-in variable in what is lowered of its body,
/// well typed or not.
pub fn built_in_variables_are_asked_for()
    ensures { (p : Program) (number : ℕ) (f : Function) → slice_get p.functions number ≡ Some f → is_lowered p f ≡ true → AlongAllLowered (AreAsked p.prototypes (program_needs p)) (with_exits outside (up_to_jump f.body)) }
{}
