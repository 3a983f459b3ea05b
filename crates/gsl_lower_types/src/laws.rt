//! Laws of the definitions: calls that do nothing, whose contracts are the laws.

ghost use Rattle.std.specs.Prelude.{◌≡◌, ℕ, List, [], None, Some};
ghost use Rattle.std.specs.List.{Contains};
ghost use Rattle.gsl_instr.specs.declared.enumerant.decoration.TheConstants as decoration;
ghost use Rattle.gsl_layout.specs.Layout.{Leaf, Parts, offset_at};
ghost use Rattle.gsl_types.specs.declared.ty.Scalar.TheVariants.{Bool as Boolean, Uint};
ghost use Rattle.gsl_types.specs.declared.ty.StructType.{StructType};
ghost use Rattle.gsl_types.specs.declared.ty.Ty.{Ty};
ghost use Rattle.gsl_types.specs.declared.ty.Ty.TheVariants as ty;
ghost use Rattle.gsl_tree.specs.Around.{stage_var_type};
ghost use Rattle.gsl_tree.specs.Shapes.{of_shape};
ghost use Rattle.gsl_tree.specs.declared.expr.StageVar.{StageVar};
ghost use Rattle.gsl_tree.specs.declared.program.Program.{Program};
ghost use Rattle.gsl_tree.specs.declared.unit.Block.{Block};
ghost use Rattle.gsl_tree.specs.declared.unit.GlobalVar.{GlobalVar};
ghost use Rattle.gsl_tree.specs.declared.unit.Interface.{Interface};
ghost use Rattle.gsl_words.specs.declared.target.Target.{Target};
ghost use Rattle.gsl_lower_types.specs.Blocks.{blocks_put};
ghost use Rattle.gsl_lower_types.specs.declared.blocks.LaidTypes.{LaidTypes};
ghost use Rattle.gsl_spv.specs.Calls as call;
ghost use Rattle.gsl_spv.specs.Calls.{decorating};
ghost use Rattle.gsl_spv.specs.Growing.{Begins, Extends};
ghost use Rattle.gsl_spv.specs.Sections.{Sections};
ghost use Rattle.gsl_lower_values.specs.Building.{Made, id_by};
ghost use Rattle.gsl_lower_holders.specs.Flow.{find_type};
ghost use Rattle.gsl_lower_types.specs.Finding.{AreFound, AreWhole, IsFound};
ghost use Rattle.gsl_lower_types.specs.Globals.{globals_put};
ghost use Rattle.gsl_lower_types.specs.Interfaces.{interfaces_put, stage_shape};
ghost use Rattle.gsl_lower_types.specs.Known.{Known};
ghost use Rattle.gsl_lower_types.specs.Laid.{array_by, struct_by, type_laid};
ghost use Rattle.gsl_lower_types.specs.Values.{program_types, value_type};

/// The struct type that is put for a group of a layout has an Offset for each member, the one of the layout.
pub fn members_stand_where_they_lie()
    ensures { (parts : Parts) (members : List ℕ) (number offset id : ℕ) (before after : Sections) → offset_at parts number ≡ Some offset → struct_by parts members before ≡ Made id after → Contains after.decorations (decorating id (Some number) decoration.OFFSET (Some offset)) }
{}

/// The type that is put for an array of a layout, or for a runtime array, has the layout's stride as its ArrayStride.
pub fn elements_stand_where_they_lie()
    ensures array { (stride element count id : ℕ) (before after : Sections) → array_by stride element count before ≡ Made id after → Contains after.decorations (decorating id None decoration.ARRAY_STRIDE (Some stride)) }
    ensures runtime { (stride element id : ℕ) (before after : Sections) → id_by (call.runtime_type element stride) before ≡ Made id after → Contains after.decorations (decorating id None decoration.ARRAY_STRIDE (Some stride)) }
{}

/// A truth value lies in a block as a `uint` does.
pub fn truth_values_lie_as_numbers()
    ensures { (structs : List StructType) (components : ℕ) (known : Known) (s : Sections) → type_laid structs (Leaf components) (ty.One Boolean) known s ≡ type_laid structs (Leaf components) (ty.One Uint) known s }
{}

/// A built-in variable has the type that the language gives it.
pub fn built_in_variables_have_their_types()
    ensures { (var : StageVar) → of_shape (stage_shape var) ≡ stage_var_type var }
{}

/// Where nothing is known, no array is without its elements. A type that was put is found; what was known is so still, and no array comes without
/// its elements.
pub fn what_is_put_is_found()
    ensures nothing { AreWhole [] }
    ensures grows { (t : Ty) (known then_known : Known) (id : ℕ) (before after : Sections) → value_type t known before ≡ Made (id, then_known) after → Begins known then_known }
    ensures found { (t : Ty) (known then_known : Known) (id : ℕ) (before after : Sections) → value_type t known before ≡ Made (id, then_known) after → IsFound then_known t }
    ensures whole { (t : Ty) (known then_known : Known) (id : ℕ) (before after : Sections) → value_type t known before ≡ Made (id, then_known) after → AreWhole known → AreWhole then_known }
{}

/// Once the types of a program are put, all that it declares are found, and no array comes without its elements.
pub fn what_is_declared_is_found()
    ensures found { (p : Program) (known then_known : Known) (before after : Sections) → program_types p known before ≡ Made (tt, then_known) after → AreFound then_known p }
    ensures whole { (p : Program) (known then_known : Known) (before after : Sections) → program_types p known before ≡ Made (tt, then_known) after → AreWhole known → AreWhole then_known }
{}

/// The id that is given for an array or a struct is the one under which lowering finds its type.
pub fn types_are_found_under_their_ids()
    ensures array { (element : Ty) (count : ℕ) (known then_known : Known) (id : ℕ) (before after : Sections) → value_type (ty.Array element count) known before ≡ Made (id, then_known) after → find_type (ty.Array element count) then_known ≡ Some id }
    ensures struct_type { (number : ℕ) (known then_known : Known) (id : ℕ) (before after : Sections) → value_type (ty.Struct number) known before ≡ Made (id, then_known) after → find_type (ty.Struct number) then_known ≡ Some id }
{}

/// The types of a program, its blocks, its global variables, and its inputs and outputs only add to what a builder holds.
pub fn types_and_variables_only_add()
    ensures types { (p : Program) (known then_known : Known) (before after : Sections) → program_types p known before ≡ Made (tt, then_known) after → Extends before after }
    ensures value_type { (t : Ty) (known then_known : Known) (id : ℕ) (before after : Sections) → value_type t known before ≡ Made (id, then_known) after → Extends before after }
    ensures blocks { (target : Target) (structs : List StructType) (blocks : List Block) (laid then_laid : LaidTypes) (ids : List ℕ) (before after : Sections) → blocks_put target structs blocks laid before ≡ Made (ids, then_laid) after → Extends before after }
    ensures globals { (structs : List StructType) (globals : List GlobalVar) (known then_known : Known) (ids : List ℕ) (before after : Sections) → globals_put structs globals known before ≡ Made (ids, then_known) after → Extends before after }
    ensures interfaces { (interfaces : List Interface) (known then_known : Known) (ids : List ℕ) (before after : Sections) → interfaces_put interfaces known before ≡ Made (ids, then_known) after → Extends before after }
{}
