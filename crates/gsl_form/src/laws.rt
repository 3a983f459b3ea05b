//! Laws of the definitions: calls that do nothing, whose contracts are the laws.

ghost use Rattle.std.specs.Prelude.{◌≡◌};
ghost use Rattle.gsl_tree.specs.WellTyped.{Lists};
ghost use Rattle.gsl_form.specs.declared.program.Program.{Program};
ghost use Rattle.gsl_form.specs.Trees.{Spells};

/// Typed lists spell at most one program.
pub fn one_program()
    ensures { (lists : Lists) (p q : Program) → Spells lists p → Spells lists q → p ≡ q }
{}
