//! Laws of the definitions: calls that do nothing, whose contracts are the laws.

ghost use Rattle.gsl_base.specs.declared.stage.Stage.{Stage};
ghost use Rattle.gsl_link.specs.Joined.{joined};
ghost use Rattle.gsl_link.specs.Units.{AreUnits};
ghost use Rattle.gsl_lower_law_linked.specs.Nesting.{AreOnce, MayNest};
ghost use Rattle.gsl_tree.specs.WellTyped.{IsProgram};
ghost use Rattle.gsl_tree.specs.declared.program.Program.{Program};
ghost use Rattle.gsl_tree.specs.declared.unit.TypedUnit.{TypedUnit};
ghost use Rattle.std.specs.Prelude.{List, Ok, ◌≡◌};

/// In a program that units of a stage make together calls nest at most 64 deep, each leads to a function of the program, and no two functions have one head.
pub fn linked_programs_nest()
    ensures { (stage : Stage) (units : List TypedUnit) (p : Program) → AreUnits stage units → IsProgram p → joined stage units ≡ Ok p → MayNest p × AreOnce p }
{}
