//! Laws of programs that are taken as one unit: calls that do nothing, whose contracts are the laws.

ghost use Rattle.std.specs.Prelude.{◌≡◌, ℕ, List, [], ◌∷◌, length, Ok};
ghost use Rattle.gsl_base.specs.declared.stage.Stage.{Stage};
ghost use Rattle.gsl_types.specs.Known.{AreStructs};
ghost use Rattle.gsl_types.specs.declared.ty.StructType.{StructType};
ghost use Rattle.gsl_tree.specs.declared.program.Program.{Program};
ghost use Rattle.gsl_tree.specs.declared.unit.Function.{Function};
ghost use Rattle.gsl_tree.specs.declared.unit.GlobalVar.{GlobalVar};
ghost use Rattle.gsl_tree.specs.declared.unit.TypedUnit.{TypedUnit};
ghost use Rattle.gsl_tree.specs.WellTyped.{AreWellTyped, IsFunction, IsGlobal, IsProgram, Lists};
ghost use Rattle.gsl_link_units.specs.Firsts.{again};
ghost use Rattle.gsl_link_units.specs.Structs.{same_struct, with_structs};
ghost use Rattle.gsl_link_whole.specs.Numbers.{Numbering};
ghost use Rattle.gsl_link_whole.specs.Renumbering.{renumbered_function, renumbered_global};
ghost use Rattle.gsl_link_whole.specs.Whole.{whole};
ghost use Rattle.gsl_link.specs.Joined.{as_unit, IsLinked, joined};
ghost use Rattle.gsl_link.specs.Units.{AreUnits};
ghost use Rattle.gsl_link_alone.specs.Alone.{InRow, IsIdentity, StandsOnce};

/// What units that were checked make together, where they have no fault of linking, has none as one unit, and is what that unit makes.
pub fn joined_programs_are_linked()
    ensures linked { (stage : Stage) (units : List TypedUnit) (p : Program) → AreUnits stage units → joined stage units ≡ Ok p → IsLinked p }
    ensures again { (stage : Stage) (units : List TypedUnit) (p : Program) → AreUnits stage units → joined stage units ≡ Ok p → joined p.stage (as_unit p ∷ []) ≡ Ok p }
{}

/// In what units make together each struct, shared variable, block, input and output, and head of a function stands once.
pub fn joined_programs_stand_once()
    ensures { (stage : Stage) (units : List TypedUnit) → StandsOnce (whole stage units) }
{}

/// A program in which each thing stands once makes itself, taken as one unit.
pub fn programs_alone_are_themselves()
    ensures { (p : Program) → IsProgram p → StandsOnce p → whole p.stage (as_unit p ∷ []) ≡ p }
{}

/// Structs of which no two are the same, joined, are the list that they were, under the numbers that they had.
pub fn structs_joined_again_stay()
    ensures list { (structs : List StructType) → AreStructs structs → again same_struct structs ≡ [] → (with_structs [] [] structs).0 ≡ structs }
    ensures numbers { (structs : List StructType) → AreStructs structs → again same_struct structs ≡ [] → InRow (with_structs [] [] structs).1 (length structs) }
{}

/// Where each number is its own new number, well typed functions and variables are as they were.
pub fn trees_by_their_own_numbers_stay()
    ensures functions { (n : Numbering) (lists : Lists) (f : Function) → AreWellTyped lists → IsIdentity n lists → IsFunction lists f → renumbered_function n f ≡ f }
    ensures variables { (n : Numbering) (lists : Lists) (number : ℕ) (g : GlobalVar) → AreWellTyped lists → IsIdentity n lists → IsGlobal lists number g → renumbered_global n g ≡ g }
{}
