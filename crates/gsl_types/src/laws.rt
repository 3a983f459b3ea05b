//! Laws of the definitions: calls that do nothing, whose contracts are the laws.

ghost use Rattle.std.specs.Prelude.{◌≡◌, ℕ, List, slice_get, Some};
ghost use Rattle.gsl_types.specs.Known.{AreStructs};
ghost use Rattle.gsl_types.specs.Leaves.{counting, leaves_of, leaves_together};
ghost use Rattle.gsl_types.specs.Spelling.{chained, spelled, spelling};
ghost use Rattle.gsl_types.specs.Spelling.Spelling.{Struct as Named};
ghost use Rattle.gsl_types.specs.Structs.{members_meaning};
ghost use Rattle.gsl_types.specs.declared.ty.StructType.{StructType};
ghost use Rattle.gsl_types.specs.declared.ty.Ty.TheVariants as ty;

/// The leaves of a struct are those of its members together.
pub fn struct_leaves()
    ensures { (structs : List StructType) (number : ℕ) (struct : StructType) → AreStructs structs → slice_get structs number ≡ Some struct → leaves_of structs (ty.Struct number) ≡ leaves_together (members_meaning counting structs struct.members) }
{}

/// A struct is spelled by its name, and the names and types of its members.
pub fn struct_spelling()
    ensures { (structs : List StructType) (number : ℕ) (struct : StructType) → AreStructs structs → slice_get structs number ≡ Some struct → spelled structs (ty.Struct number) ≡ Named struct.name (chained (members_meaning spelling structs struct.members)) }
{}
