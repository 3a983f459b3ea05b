//! Laws of the definitions: calls that do nothing, whose contracts are the laws.

ghost use Rattle.std.specs.Prelude.{◌≡◌, ◌++◌, ◌||◌, ℕ, Bool, List, [], false, true};
ghost use Rattle.gsl_instr.specs.declared.enumerant.storage_class.TheConstants as storage_class;
ghost use Rattle.gsl_types.specs.declared.ty.StructType.{StructType};
ghost use Rattle.gsl_types.specs.declared.ty.Ty.{Ty};
ghost use Rattle.gsl_valid.specs.Sections.{is_class};
ghost use Rattle.gsl_spv.specs.Sections.{Sections};
ghost use Rattle.gsl_lower_places.specs.declared.reached.Reached.{Reached};
ghost use Rattle.gsl_lower_holders.specs.Flow.{Emit, Flow};
ghost use Rattle.gsl_lower_holders.specs.Waiting.{fetch_reached, hold_reached};
ghost use Rattle.gsl_lower_expr.specs.Parts.{accessed, stores};
ghost use Rattle.gsl_fitting.specs.Fits.{Frame};
ghost use Rattle.gsl_fitting_types.specs.Making.{AreSorted, made};
ghost use Rattle.gsl_fitting_flow.specs.Flowing.{Flows, GivesNone, IsLater, IsOf};
ghost use Rattle.gsl_fitting_expr.specs.Evaluating.{Evaluates};
ghost use Rattle.gsl_fitting_reaching.specs.Reached.{IsReached, Reaches, Spot, asked_of};
ghost use Rattle.gsl_fitting_reads.specs.Moving.{IsGot, IsPut};
ghost use Rattle.gsl_fitting_reads.specs.Waiting.{StaysReached, held_if};

/// The ids in what an expression leads to wait in holders while blocks end and begin, and it is there again behind them.
pub fn places_wait()
    ensures held { (whole : Sections) (main : ℕ) (local_size : List ℕ) (rank : ℕ → ℕ) (f : Frame) → AreSorted whole → (b : Bool) (deep : ℕ) (given : List ℕ) (spot : Spot) (r : Reached) (u : Flow) → IsReached whole main local_size rank f given spot r → Flows whole main local_size rank f (held_if b (asked_of whole spot)) deep false given (λ kept now after. StaysReached whole main local_size rank f b now spot kept) u (hold_reached b r u) }
    ensures fetched { (whole : Sections) (main : ℕ) (local_size : List ℕ) (rank : ℕ → ℕ) (f : Frame) → AreSorted whole → (b : Bool) (deep : ℕ) (given : List ℕ) (spot : Spot) (kept : Reached) (u : Flow) → StaysReached whole main local_size rank f b given spot kept → Flows whole main local_size rank f [] deep false given (λ r now after. IsReached whole main local_size rank f now spot r) u (fetch_reached b kept u) }
{}

/// A value is read where an expression leads.
pub fn places_give()
    ensures { (whole : Sections) (main : ℕ) (local_size : List ℕ) (rank : ℕ → ℕ) (f : Frame) → AreSorted whole → (s : Flow) (asks more : List ℕ) (deep : ℕ) (splits : Bool) (structs : List StructType) (t : Ty) (spot : Spot) (type : ℕ) (reach : Emit Reached) → is_class (made whole main local_size rank f).version storage_class.FUNCTION ≡ true → IsGot whole main local_size rank f s structs t spot type more → spot.may.reads ≡ true → Reaches whole main local_size rank f s asks deep splits spot reach → Evaluates whole main local_size rank f s (asks ++ more) deep (splits || false) type (accessed structs t reach) }
{}

/// A value is stored there.
pub fn places_take()
    ensures { (whole : Sections) (main : ℕ) (local_size : List ℕ) (rank : ℕ → ℕ) (f : Frame) → AreSorted whole → (s : Flow) (deep : ℕ) (given : List ℕ) (structs : List StructType) (t : Ty) (spot : Spot) (type : ℕ) (r : Reached) (v : ℕ) (u : Flow) → IsLater s u → IsPut whole main local_size rank f s structs t spot type → spot.may.stores ≡ true → IsReached whole main local_size rank f given spot r → IsOf whole main local_size rank f given type v → Flows whole main local_size rank f [] deep false given (GivesNone whole main local_size rank f) u (stores structs t r v u) }
{}
