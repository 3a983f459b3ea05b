//! Laws of the definitions: calls that do nothing, whose contracts are the laws.

ghost use Rattle.std.specs.Prelude.{ℕ, ◌++◌};
ghost use Rattle.gsl_words.specs.declared.module.Module.{Module};
ghost use Rattle.gsl_blocks.specs.Blocks.{blocks_of};
ghost use Rattle.gsl_valid.specs.CallRules.{call_kept};
ghost use Rattle.gsl_valid.specs.ConstantRules.{constant_typed};
ghost use Rattle.gsl_valid.specs.DecorationRules.{decorated};
ghost use Rattle.gsl_valid.specs.DefinedBeforeUse.{uses_defined};
ghost use Rattle.gsl_valid.specs.EntryRules.{entry_kept};
ghost use Rattle.gsl_valid.specs.ExtendedRules.{extended_kept};
ghost use Rattle.gsl_valid.specs.FunctionRules.{in_shape};
ghost use Rattle.gsl_valid.specs.GlobalRules.{global_kept};
ghost use Rattle.gsl_valid.specs.LayoutRules.{laid};
ghost use Rattle.gsl_valid.specs.LimitRules.{within_limits};
ghost use Rattle.gsl_valid.specs.LocalityRules.{uses_near};
ghost use Rattle.gsl_valid.specs.MemoryRules.{memory_kept};
ghost use Rattle.gsl_valid.specs.OperandRules.{typed};
ghost use Rattle.gsl_valid.specs.Placed.{Code};
ghost use Rattle.gsl_valid.specs.ReturnRules.{returns_kept};
ghost use Rattle.gsl_valid.specs.Sections.{in_section};
ghost use Rattle.gsl_valid.specs.StructureRules.{begins_structured};
ghost use Rattle.gsl_valid.specs.TypeRules.{type_made};
ghost use Rattle.gsl_fitting.specs.Functions.{IsFunction};
ghost use Rattle.gsl_fitting_code.specs.Kept.{AreOrdered, FunctionsPass};

/// The blocks of a function are in order, and its constructs do not stand too deep within each other.
pub fn functions_are_ordered()
    ensures { (m : Module) (rank : ℕ → ℕ) (code later : Code) → IsFunction m rank code → AreOrdered (blocks_of (code ++ later)) }
{}

/// Functions stand in their section, and have the numbers that they may have (V1).
pub fn functions_keep_their_section()
    ensures { FunctionsPass in_section }
{}

/// What functions use is defined before it (V3).
pub fn functions_use_what_is_defined()
    ensures { FunctionsPass uses_defined }
{}

/// Functions break no rule of types, constants, global variables, decorations and layouts, nor that of the entry point (V4 to V9).
pub fn functions_keep_what_stands_outside()
    ensures types { FunctionsPass type_made }
    ensures constants { FunctionsPass constant_typed }
    ensures globals { FunctionsPass global_kept }
    ensures decorations { FunctionsPass decorated }
    ensures layouts { FunctionsPass laid }
    ensures entry { FunctionsPass entry_kept }
{}

/// Functions are shaped as they have to be (V10).
pub fn functions_have_their_shape()
    ensures { FunctionsPass in_shape }
{}

/// Functions call as they may (V11).
pub fn functions_call_as_they_may()
    ensures { FunctionsPass call_kept }
{}

/// The blocks of functions are structured (V12), and no limit is passed (V18).
pub fn functions_are_structured()
    ensures structure { FunctionsPass begins_structured }
    ensures limits { FunctionsPass within_limits }
{}

/// What a block defines is used in it alone (V13).
pub fn functions_use_what_is_near()
    ensures { FunctionsPass uses_near }
{}

/// Operands have their types (V14), memory is reached as it may be (V15), functions return what they give (V16), and extended
/// instructions fit (V17).
pub fn functions_are_typed()
    ensures operands { FunctionsPass typed }
    ensures memory { FunctionsPass memory_kept }
    ensures returns { FunctionsPass returns_kept }
    ensures extension { FunctionsPass extended_kept }
{}
