//! Laws of the definitions: calls that do nothing, whose contracts are the laws.

ghost use Rattle.std.specs.Prelude.{◌≡◌, ◌==◌, ℕ, List, false};
ghost use Rattle.gsl_tree.specs.Shapes.{Shape};
ghost use Rattle.gsl_spv.specs.Sections.{Sections};
ghost use Rattle.gsl_lower_places.specs.Pointed.{pointed, to_renew};
ghost use Rattle.gsl_lower_places.specs.Reached.{component_at};
ghost use Rattle.gsl_lower_places.specs.Reading.{pointer, read};
ghost use Rattle.gsl_lower_places.specs.Writing.{stored};
ghost use Rattle.gsl_lower_places.specs.declared.reached.Part.{Part};
ghost use Rattle.gsl_lower_places.specs.declared.reached.Reached.{Reached};
ghost use Rattle.gsl_fitting.specs.Fits.{Frame};
ghost use Rattle.gsl_fitting_types.specs.Making.{AreSorted, Comes, GivesValue, IsValue, Sorts, made};
ghost use Rattle.gsl_fitting_places.specs.Leading.{IsIndex, IsLed, IsValueType, IsWay, Leads, Nothing};
ghost use Rattle.gsl_fitting_places.specs.Places.{IsAmong, IsOfShape, IsRefined, MayPoint, MayRead, MayStore, MayUpdate, TakesMore};

/// A pointer to where parts lead from what another points to: where there are no parts, that other.
pub fn pointers_fit()
    ensures sorts { (id class pointee : ℕ) (parts : List Part) (s : Sections) → Sorts s (pointer id class pointee parts s) }
    ensures comes { (whole : Sections) (main : ℕ) (local_size : List ℕ) (rank : ℕ → ℕ) (f : Frame) → AreSorted whole → (given : List ℕ) (class id pointee type : ℕ) (parts : List Part) (before : Sections) → Leads whole main local_size rank f given class id pointee parts type → IsWay (made whole main local_size rank f) class id parts → IsValueType before type → Comes whole main local_size rank f given (λ to now after. IsLed whole main local_size rank f now class id pointee parts type to) before (pointer id class type parts before) }
{}

/// What is read where an expression leads, in a variable or in a value, is a value of its shape.
pub fn reads_fit()
    ensures sorts { (shape : Shape) (r : Reached) (s : Sections) → Sorts s (read shape r s) }
    ensures comes { (whole : Sections) (main : ℕ) (local_size : List ℕ) (rank : ℕ → ℕ) (f : Frame) → AreSorted whole → (given : List ℕ) (shape : Shape) (r : Reached) (before : Sections) → MayRead whole main local_size rank f given shape r → Comes whole main local_size rank f given (GivesValue whole main local_size rank f shape) before (read shape r before) }
{}

/// A value is stored where an expression leads.
pub fn stores_fit()
    ensures sorts { (shape : Shape) (r : Reached) (v : ℕ) (s : Sections) → Sorts s (stored shape r v s) }
    ensures comes { (whole : Sections) (main : ℕ) (local_size : List ℕ) (rank : ℕ → ℕ) (f : Frame) → AreSorted whole → (given : List ℕ) (shape : Shape) (r : Reached) (v : ℕ) (before : Sections) → MayStore whole main local_size rank f given shape r → IsValue whole main local_size rank f given shape v → Comes whole main local_size rank f given Nothing before (stored shape r v before) }
{}

/// One pointer to what an expression leads to.
pub fn pointed_fits()
    ensures sorts { (shape : Shape) (r : Reached) (s : Sections) → Sorts s (pointed shape r s) }
    ensures comes { (whole : Sections) (main : ℕ) (local_size : List ℕ) (rank : ℕ → ℕ) (f : Frame) → AreSorted whole → (given : List ℕ) (shape : Shape) (r : Reached) (before : Sections) → MayPoint whole main local_size rank f given shape r → Comes whole main local_size rank f given (λ to now after. Unit {0}) before (pointed shape r before) }
{}

/// What may be read and then stored may be so where it is made ready for both, which one pointer serves, but for several components.
pub fn renewals_fit()
    ensures sorts { (shape : Shape) (r : Reached) (s : Sections) → Sorts s (to_renew shape r s) }
    ensures comes { (whole : Sections) (main : ℕ) (local_size : List ℕ) (rank : ℕ → ℕ) (f : Frame) → AreSorted whole → (given : List ℕ) (shape : Shape) (r : Reached) (before : Sections) → MayUpdate whole main local_size rank f given shape r → Comes whole main local_size rank f given (λ to now after. MayUpdate whole main local_size rank f now shape to) before (to_renew shape r before) }
{}

/// A component at an index of a vector, or of what is picked of one, may be read and stored where that might.
pub fn components_fit()
    ensures sorts { (shape : Shape) (part : Part) (r : Reached) (s : Sections) → Sorts s (component_at shape part r s) }
    ensures comes { (whole : Sections) (main : ℕ) (local_size : List ℕ) (rank : ℕ → ℕ) (f : Frame) → AreSorted whole → (given : List ℕ) (shape : Shape) → (shape.1 == 1) ≡ false → (part : Part) (r : Reached) (before : Sections) → IsOfShape whole main local_size rank f given shape r.picked → IsIndex whole main local_size rank f given part → IsAmong shape.1 part → TakesMore whole main local_size rank f r.base r.path → Comes whole main local_size rank f given (λ to now after. IsRefined whole main local_size rank f given now shape (shape.0, 1) r to × (MayStore whole main local_size rank f given shape r → MayStore whole main local_size rank f now (shape.0, 1) to)) before (component_at shape part r before) }
{}

/// What may be updated, may be read and stored.
pub fn updates_serve()
    ensures reads { (whole : Sections) (main : ℕ) (local_size : List ℕ) (rank : ℕ → ℕ) (f : Frame) → AreSorted whole → (given : List ℕ) (shape : Shape) (r : Reached) → MayUpdate whole main local_size rank f given shape r → MayRead whole main local_size rank f given shape r }
    ensures stores { (whole : Sections) (main : ℕ) (local_size : List ℕ) (rank : ℕ → ℕ) (f : Frame) → AreSorted whole → (given : List ℕ) (shape : Shape) (r : Reached) → MayUpdate whole main local_size rank f given shape r → MayStore whole main local_size rank f given shape r }
{}
