//! Laws of the definitions: calls that do nothing, whose contracts are the laws.

ghost use Rattle.std.specs.Prelude.{◌≡◌, ◌++◌, ◌||◌, ℕ, Bool, List, [], false, true};
ghost use Rattle.gsl_instr.specs.declared.enumerant.storage_class.TheConstants as storage_class;
ghost use Rattle.gsl_types.specs.declared.ty.StructType.{StructType};
ghost use Rattle.gsl_types.specs.declared.ty.Ty.{Ty};
ghost use Rattle.gsl_valid.specs.Sections.{is_class};
ghost use Rattle.gsl_spv.specs.Sections.{Sections};
ghost use Rattle.gsl_lower_places.specs.declared.reached.Part.{Part};
ghost use Rattle.gsl_lower_places.specs.declared.reached.Reached.{Reached};
ghost use Rattle.gsl_lower_traits.specs.Traits.{spills};
ghost use Rattle.gsl_lower_holders.specs.Flow.{Flow, lift};
ghost use Rattle.gsl_lower_expr.specs.Parts.{Lower, indexed, known_of, probe};
ghost use Rattle.gsl_fitting.specs.Fits.{Frame};
ghost use Rattle.gsl_fitting_types.specs.Making.{AreSorted, made};
ghost use Rattle.gsl_fitting_flow.specs.Flowing.{Flows, GivesNone};
ghost use Rattle.gsl_fitting_reaching.specs.Reached.{IsReached, Reaches, Spot, asked_of};
ghost use Rattle.gsl_fitting_reads.specs.Waiting.{held_if};
ghost use Rattle.gsl_fitting_indexes.specs.Indexes.{IsIndexed, IsSpilled, IsTested, LeadsBy};

/// What was reached is tested before calls: a pointer to it, or to its first leaf, is made, or its value read.
pub fn tests_fit()
    ensures { (whole : Sections) (main : ℕ) (local_size : List ℕ) (rank : ℕ → ℕ) (f : Frame) → AreSorted whole → (deep : ℕ) (given : List ℕ) (structs : List StructType) (calls : Bool) (t : Ty) (spot : Spot) (r : Reached) (u : Flow) → IsTested whole main local_size rank f structs t spot calls → IsReached whole main local_size rank f given spot r → Flows whole main local_size rank f [] deep false given (GivesNone whole main local_size rank f) u (lift (probe structs calls t r) u) }
{}

/// An element of an array and a component of a vector, at an index that is known or computed: what is indexed waits where the index has labels,
/// and an array in no variable is put into a holder first.
pub fn indexes_reach()
    ensures { (whole : Sections) (main : ℕ) (local_size : List ℕ) (rank : ℕ → ℕ) (f : Frame) → AreSorted whole → (s : Flow) (asks more others : List ℕ) (deep : ℕ) (splits : Bool) (structs : List StructType) (a i : Lower) (spot kept to : Spot) (sample : Part) → is_class (made whole main local_size rank f).version storage_class.FUNCTION ≡ true → IsSpilled whole main local_size rank f s structs a.ty spot (spills (known_of a) i.traits) more kept → IsTested whole main local_size rank f structs a.ty kept i.traits.calls → IsIndexed whole main local_size rank f s deep i i.traits.literal others sample → LeadsBy whole main local_size rank f a.ty kept sample to → Reaches whole main local_size rank f s asks deep splits spot a.reach → Reaches whole main local_size rank f s ((asks ++ (more ++ held_if i.traits.splits (asked_of whole kept))) ++ others) deep (splits || i.traits.splits) to (indexed structs a i) }
{}
