//! A law of the definitions: a call that does nothing, whose contract is the law.

ghost use Rattle.std.specs.Prelude.{ℕ, List, None, Some};
ghost use Rattle.std.specs.List.{AllByRecursion};
ghost use Rattle.gsl_types.specs.Known.{AreStructs};
ghost use Rattle.gsl_types.specs.declared.ty.StructType.{StructType};
ghost use Rattle.gsl_types.specs.declared.ty.Ty.{Ty};
ghost use Rattle.gsl_spv.specs.Sections.{Sections};
ghost use Rattle.gsl_lower_holders.specs.declared.place.FlowPlace.{FlowPlace};
ghost use Rattle.gsl_lower_leaves.specs.Leaves.{leaves_of};
ghost use Rattle.gsl_fitting.specs.Fits.{Frame};
ghost use Rattle.gsl_fitting_reaching.specs.Reached.{May};
ghost use Rattle.gsl_fitting_reads.specs.Moving.{GivesLeaf, HasLeaf};
ghost use Rattle.gsl_fitting_known.specs.Lying.{Lies};

/// The leaves of a type are there in what stands for it, in a variable and in a value.
pub fn leaves_lie()
    ensures in_variables { (whole : Sections) (main : ℕ) (local_size : List ℕ) (rank : ℕ → ℕ) (f : Frame) (place : FlowPlace) (structs : List StructType) → AreStructs structs → (class : ℕ) (may : May) (room : ℕ) (t : Ty) (type : ℕ) → Lies whole main local_size rank f place structs (Some class) may room t type → AllByRecursion (HasLeaf whole main local_size rank f class may type room) (leaves_of structs t) }
    ensures in_values { (whole : Sections) (main : ℕ) (local_size : List ℕ) (rank : ℕ → ℕ) (f : Frame) (place : FlowPlace) (structs : List StructType) → AreStructs structs → (may : May) (room : ℕ) (t : Ty) (type : ℕ) → Lies whole main local_size rank f place structs None may room t type → AllByRecursion (GivesLeaf whole main local_size rank f type room) (leaves_of structs t) }
{}
