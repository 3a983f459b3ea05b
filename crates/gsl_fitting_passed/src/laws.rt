//! Laws of the definitions: calls that do nothing, whose contracts are the laws.

ghost use Rattle.std.specs.Prelude.{◌≡◌, ℕ, List, Some, slice_get, true};
ghost use Rattle.gsl_instr.specs.declared.enumerant.storage_class.TheConstants as storage_class;
ghost use Rattle.gsl_types.specs.declared.ty.StructType.{StructType};
ghost use Rattle.gsl_types.specs.declared.ty.Ty.{Ty};
ghost use Rattle.gsl_tree.specs.Weights.{params_of};
ghost use Rattle.gsl_tree.specs.declared.unit.Prototype.{Prototype};
ghost use Rattle.gsl_valid.specs.Sections.{is_class};
ghost use Rattle.gsl_spv.specs.Sections.{Sections};
ghost use Rattle.gsl_lower_holders.specs.Flow.{Flow};
ghost use Rattle.gsl_lower_expr.specs.Calls.{calling};
ghost use Rattle.gsl_lower_expr.specs.Parts.{Lower, any_splits};
ghost use Rattle.gsl_fitting.specs.Fits.{Frame};
ghost use Rattle.gsl_fitting_types.specs.Making.{AreSorted, made};
ghost use Rattle.gsl_fitting_expr.specs.Evaluating.{Evaluates};
ghost use Rattle.gsl_fitting_passed.specs.Arguments.{AreDifferent, ArePassed, IsCallable, IsResult, Way, asked_by_all, types_of};

/// A call of a function on arguments that are passed in whatever way: each goes by a pointer to a holder of its own, no two of which are the same,
/// and what comes back is stored where the argument leads.
pub fn calls_evaluate()
    ensures { (whole : Sections) (main : ℕ) (local_size : List ℕ) (rank : ℕ → ℕ) (f : Frame) → AreSorted whole → (s : Flow) (deep : ℕ) (structs : List StructType) (prototypes : List Prototype) (number : ℕ) (args : List Lower) (ways : List Way) (t : Ty) (type : ℕ) → is_class (made whole main local_size rank f).version storage_class.FUNCTION ≡ true → AreDifferent s.place.holders → ArePassed whole main local_size rank f s deep structs args (params_of (slice_get prototypes number)) ways → IsResult whole main local_size rank f s t type → ((id : ℕ) → slice_get s.place.functions number ≡ Some id → IsCallable whole main local_size rank f type (types_of ways) id) → Evaluates whole main local_size rank f s (asked_by_all ways) deep (any_splits args) type (calling structs prototypes number args t) }
{}
