//! Laws of what the checker answers, as units that are linked: calls that do nothing, whose contracts are the laws.

ghost use Rattle.std.specs.Prelude.{◌≡◌, ◌≤◌, List, length, Ok};
ghost use Rattle.gsl_base.specs.declared.stage.Stage.{Stage};
ghost use Rattle.gsl_syntax.specs.declared.statement.Global.{Global};
ghost use Rattle.gsl_tree.specs.declared.program.Program.{Program};
ghost use Rattle.gsl_tree.specs.declared.unit.TypedUnit.{TypedUnit};
ghost use Rattle.gsl_check.specs.Units.{checked};
ghost use Rattle.gsl_formed.specs.Formed.{IsParsed};
ghost use Rattle.gsl_link.specs.Joined.{IsLinked, joined};
ghost use Rattle.gsl_link.specs.Units.{AreUnits, most_units};
ghost use Rattle.gsl_link_checked.specs.Answers.{AreAnswers, DeclaresOnce};

/// In a unit that the checker answers no two variables that are shared, no two blocks, and no two inputs and outputs have one name, and each
/// function has one head.
pub fn names_are_declared_once()
    ensures { (stage : Stage) (tree : List Global) (unit : TypedUnit) → IsParsed tree → checked stage tree ≡ Ok unit → DeclaresOnce unit }
{}

/// What the checker answers for so many trees as there may be units of a program may be linked.
pub fn checked_units_may_be_linked()
    ensures { (stage : Stage) (trees : List (List Global)) (units : List TypedUnit) → AreAnswers stage trees units → length units ≤ most_units → AreUnits stage units }
{}

/// What they make together, where they have no fault of linking, is a program that has none, taken as one unit.
pub fn checked_units_are_linked()
    ensures { (stage : Stage) (trees : List (List Global)) (units : List TypedUnit) (p : Program) → AreAnswers stage trees units → length units ≤ most_units → joined stage units ≡ Ok p → IsLinked p }
{}
