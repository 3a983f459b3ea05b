//! Laws of the definitions: calls that do nothing, whose contracts are the laws.

ghost use Rattle.gsl_lower_flow.specs.Programs.{declared};
ghost use Rattle.gsl_lower_holders.specs.declared.place.FlowPlace.{FlowPlace};
ghost use Rattle.gsl_lower_law_outside.specs.Known.{AreTold};
ghost use Rattle.gsl_lower_law_outside.specs.Outside.{HasOuter};
ghost use Rattle.gsl_lower_needs.specs.declared.need.Need.{Need};
ghost use Rattle.gsl_lower_text.specs.Written.{Written};
ghost use Rattle.gsl_lower_values.specs.Building.{Made};
ghost use Rattle.gsl_spv.specs.Growing.{Extends};
ghost use Rattle.gsl_spv.specs.Sections.{Sections};
ghost use Rattle.gsl_tree.specs.WellTyped.{AreWellTyped, program_lists};
ghost use Rattle.gsl_tree.specs.declared.program.Program.{Program};
ghost use Rattle.gsl_valid.specs.Valid.{Valid};
ghost use Rattle.gsl_words.specs.declared.module.Module.{Module};
ghost use Rattle.gsl_words.specs.declared.target.Target.{Target};
ghost use Rattle.std.specs.Prelude.{List, ◌≡◌};

/// Once all is put that stands outside functions, a valid module says of the types that are known for arrays and structs what the program says: their zeros are the program's, and none is a vector.
pub fn what_is_known_is_told()
    ensures { (m : Module) (whole : Sections) (target : Target) (p : Program) (asked : List Need) (place : FlowPlace) (before after : Sections) → Valid m → Written m whole → AreWellTyped (program_lists p) → declared target p asked before ≡ Made place after → Extends after whole → AreTold m p.structs place.composites }
{}

/// Outside functions stand the global variables, the inputs and outputs, and the built-in variables that are asked for, each under an id of its own.
pub fn variables_stand_outside()
    ensures { (m : Module) (whole : Sections) (target : Target) (p : Program) (asked : List Need) (place : FlowPlace) (before after : Sections) → Valid m → Written m whole → declared target p asked before ≡ Made place after → HasOuter p asked before place after }
{}
