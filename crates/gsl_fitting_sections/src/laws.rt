//! Laws of the definitions: calls that do nothing, whose contracts are the laws.

ghost use Rattle.gsl_valid.specs.CallRules.{calls};
ghost use Rattle.gsl_valid.specs.ConstantRules.{constants};
ghost use Rattle.gsl_valid.specs.DecorationRules.{decorations};
ghost use Rattle.gsl_valid.specs.DefinedBeforeUse.{defined_before_use};
ghost use Rattle.gsl_valid.specs.ExtendedRules.{extended};
ghost use Rattle.gsl_valid.specs.FunctionRules.{function_shape};
ghost use Rattle.gsl_valid.specs.GlobalRules.{globals};
ghost use Rattle.gsl_valid.specs.IdsDefinedOnce.{ids_defined_once};
ghost use Rattle.gsl_valid.specs.LayoutRules.{layouts};
ghost use Rattle.gsl_valid.specs.LimitRules.{limits};
ghost use Rattle.gsl_valid.specs.LocalityRules.{locality};
ghost use Rattle.gsl_valid.specs.MemoryRules.{memory};
ghost use Rattle.gsl_valid.specs.OperandRules.{operand_types};
ghost use Rattle.gsl_valid.specs.ReturnRules.{returns};
ghost use Rattle.gsl_valid.specs.Sections.{sections};
ghost use Rattle.gsl_valid.specs.StructureRules.{structure};
ghost use Rattle.gsl_valid.specs.TypeRules.{types};
ghost use Rattle.gsl_fitting_sections.specs.Sections.{Unbroken};

/// Sections are in their order, with the numbers that they may have (V1).
pub fn sections_are_in_order()
    ensures { Unbroken sections }
{}

/// Each id is defined once (V2), and before its uses (V3).
pub fn sections_define_their_ids()
    ensures once { Unbroken ids_defined_once }
    ensures before { Unbroken defined_before_use }
{}

/// Types, constants and global variables are as they may be (V4 to V6).
pub fn sections_declare_what_may_be()
    ensures types { Unbroken types }
    ensures constants { Unbroken constants }
    ensures globals { Unbroken globals }
{}

/// Decorations stand where they may (V7), and blocks are laid as they may be (V8).
pub fn sections_decorate_as_they_may()
    ensures marks { Unbroken decorations }
    ensures layouts { Unbroken layouts }
{}

/// Functions are shaped as they have to be (V10), call as they may (V11), and have structured blocks (V12).
pub fn sections_have_functions()
    ensures shape { Unbroken function_shape }
    ensures calls { Unbroken calls }
    ensures structure { Unbroken structure }
{}

/// What is defined in a block or a function is used there (V13).
pub fn sections_use_what_is_near()
    ensures { Unbroken locality }
{}

/// Operands (V14), memory (V15), what is returned (V16) and extended instructions (V17) are as they have to be.
pub fn sections_are_typed()
    ensures operands { Unbroken operand_types }
    ensures memory { Unbroken memory }
    ensures given { Unbroken returns }
    ensures extension { Unbroken extended }
{}

/// No limit is passed (V18).
pub fn sections_are_within_limits()
    ensures { Unbroken limits }
{}
