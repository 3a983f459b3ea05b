//! A law of the definitions: a call that does nothing, whose contract is the law.

ghost use Rattle.std.specs.Prelude.{◌≡◌, ℕ, Bool, List, true};
ghost use Rattle.gsl_spv.specs.Sections.{Sections};
ghost use Rattle.gsl_lower_places.specs.declared.reached.Reached.{Reached};
ghost use Rattle.gsl_lower_holders.specs.Flow.{Emit, Flow};
ghost use Rattle.gsl_fitting.specs.Fits.{Frame};
ghost use Rattle.gsl_fitting_reaching.specs.Reached.{Reaches, Spot};

/// What leads where something may be stored leads there too where less may be.
pub fn less_may_be_stored()
    ensures { (whole : Sections) (main : ℕ) (local_size : List ℕ) (rank : ℕ → ℕ) (f : Frame) (s : Flow) (asks : List ℕ) (deep : ℕ) (splits stores : Bool) (spot : Spot) (reach : Emit Reached) → (stores ≡ true → spot.may.stores ≡ true) → Reaches whole main local_size rank f s asks deep splits spot reach → Reaches whole main local_size rank f s asks deep splits (record spot { may = record { reads = spot.may.reads; stores = stores } }) reach }
{}
