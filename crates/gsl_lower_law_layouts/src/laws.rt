//! Laws of the definitions: calls that do nothing, whose contracts are the laws.

ghost use Rattle.std.specs.Prelude.{◌≡◌, ℕ, map, List};
ghost use Rattle.std.specs.List.{AllByRecursion};
ghost use Rattle.gsl_layout.specs.Layout.{Leaf as Run};
ghost use Rattle.gsl_layout.specs.Measures.{measure};
ghost use Rattle.gsl_types.specs.declared.ty.StructType.{StructType};
ghost use Rattle.gsl_types.specs.declared.ty.Ty.{Ty};
ghost use Rattle.gsl_views.specs.Paths.{Leads};
ghost use Rattle.gsl_lower_places.specs.Reading.{number_in};
ghost use Rattle.gsl_lower_places.specs.declared.reached.Part.TheVariants.{Fixed};
ghost use Rattle.gsl_lower_leaves.specs.Leaves.{leaves_of};
ghost use Rattle.gsl_lower_leaves.specs.declared.leaf.Leaf.{Leaf};

/// The numbers of each leaf of a type are known, and lead in its layout, by either rule, to a run of as many components.
pub fn leaves_are_laid()
    ensures { (raise : ℕ → ℕ) (structs : List StructType) (ty : Ty) (size at : ℕ) → AllByRecursion (λ (one : Leaf). (offset : ℕ) × (one.path ≡ map Fixed (map number_in one.path)) × Leads size (measure raise structs ty).laid at (map number_in one.path) (Run one.shape.1) offset) (leaves_of structs ty) }
{}
