//! Laws of the definitions: calls that do nothing, whose contracts are the laws.

ghost use Rattle.std.specs.Prelude.{◌≡◌, ◌↔◌, ℕ, ◌∷◌, List, IsTrue, Ok, Err};
ghost use Rattle.gsl_types.specs.declared.ty.Ty.{Ty};
ghost use Rattle.gsl_overload.specs.declared.choice.Choice.TheVariants.{NoMatch, Ambiguous};
ghost use Rattle.gsl_overload.specs.Best.{Signature, FitsAt, IsBest, chosen};
ghost use Rattle.gsl_overload.specs.Identity.{identical};

/// What is chosen is the best candidate; there is no match where none fits, and the call is ambiguous where some
/// fit and none is the best.
pub fn chosen_is_best()
    ensures best { (candidates : List Signature) (args : List Ty) (place : ℕ) → (chosen candidates args ≡ Ok place) ↔ IsBest candidates args place }
    ensures none { (candidates : List Signature) (args : List Ty) → (chosen candidates args ≡ Err NoMatch) ↔ ((place : ℕ) → FitsAt candidates args place → ⊥) }
    ensures ambiguous { (candidates : List Signature) (args : List Ty) → chosen candidates args ≡ Err Ambiguous
        → ((place : ℕ) × FitsAt candidates args place) × ((place : ℕ) → IsBest candidates args place → ⊥) }
{}

/// At most one candidate is the best.
pub fn one_best()
    ensures { (candidates : List Signature) (args : List Ty) (first second : ℕ) → IsBest candidates args first → IsBest candidates args second → first ≡ second }
{}

/// Types that pass the test are equal, and no others.
pub fn identical_is_equal()
    ensures { (a b : Ty) → IsTrue (identical a b) ↔ (a ≡ b) }
{}
