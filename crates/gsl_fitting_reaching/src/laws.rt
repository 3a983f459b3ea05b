//! Laws of the definitions: calls that do nothing, whose contracts are the laws.

ghost use Rattle.std.specs.Prelude.{◌≡◌, ◌≤◌, ◌<◌, ℕ, Bool, List, [], Option, Some, None, false, length, slice_get, suc, true};
ghost use Rattle.gsl_types.specs.declared.ty.Ty.{Ty};
ghost use Rattle.gsl_tree.specs.Shapes.{Shape, shape_of};
ghost use Rattle.gsl_valid.specs.LimitRules.{most_indexes};
ghost use Rattle.gsl_spv.specs.Sections.{Sections};
ghost use Rattle.gsl_lower_places.specs.Reached.{part_of, swizzled};
ghost use Rattle.gsl_lower_places.specs.declared.reached.Part.TheVariants.{Fixed};
ghost use Rattle.gsl_lower_places.specs.declared.reached.Reached.{Reached};
ghost use Rattle.gsl_lower_holders.specs.Flow.{Emit, Flow, behind};
ghost use Rattle.gsl_lower_holders.specs.Flow as flows;
ghost use Rattle.gsl_lower_holders.specs.declared.place.FlowPlace.{FlowPlace};
ghost use Rattle.gsl_lower_expr.specs.Parts.{in_block, loose_value, named};
ghost use Rattle.gsl_fitting.specs.Fits.{Frame};
ghost use Rattle.gsl_fitting_types.specs.Making.{AreSorted};
ghost use Rattle.gsl_fitting_builtins.specs.Arguments.{AreBelow};
ghost use Rattle.gsl_fitting_places.specs.Places.{MayPoint, MayRead, MayStore, MayUpdate};
ghost use Rattle.gsl_fitting_flow.specs.Flowing.{IsTypeFor};
ghost use Rattle.gsl_fitting_expr.specs.Evaluating.{Evaluates};
ghost use Rattle.gsl_fitting_reaching.specs.Reached.{IsMember, IsReached, IsVariable, Lasts, May, Parts, Reaches, Spot, Stands, named_spot, part_spot, swizzle_spot, value_spot};

/// The name of a variable, a parameter, an input or an output, and a member of a block.
pub fn names_reach()
    ensures named { (whole : Sections) (main : ℕ) (local_size : List ℕ) (rank : ℕ → ℕ) (f : Frame) → AreSorted whole → (s : Flow) (deep : ℕ) (list : FlowPlace → List ℕ) (number class : ℕ) (may : May) (shape : Option Shape) (type room : ℕ) → Lasts list → ((id : ℕ) → slice_get (list s.place) number ≡ Some id → IsVariable whole main local_size rank f may class type room id) → Stands whole main local_size rank f (Some class) shape type → Reaches whole main local_size rank f s [] deep false (named_spot class may shape type room) (named list class number) }
    ensures in_blocks { (whole : Sections) (main : ℕ) (local_size : List ℕ) (rank : ℕ → ℕ) (f : Frame) → AreSorted whole → (s : Flow) (deep block number class : ℕ) (may : May) (shape : Option Shape) (type room : ℕ) → ((id other : ℕ) → slice_get s.place.blocks block ≡ Some id → slice_get s.place.classes block ≡ Some other → (other ≡ class) × IsMember whole main local_size rank f may class number type room id) → Stands whole main local_size rank f (Some class) shape type → Reaches whole main local_size rank f s [] deep false (named_spot class may shape type room) (in_block block number) }
{}

/// A value in no variable.
pub fn values_reach()
    ensures { (whole : Sections) (main : ℕ) (local_size : List ℕ) (rank : ℕ → ℕ) (f : Frame) → AreSorted whole → (s : Flow) (asks : List ℕ) (deep : ℕ) (splits : Bool) (may : May) (t : Ty) (type room : ℕ) (value : Emit ℕ) → room < most_indexes → IsTypeFor whole main local_size rank f s.place t type → Evaluates whole main local_size rank f s asks deep splits type value → Reaches whole main local_size rank f s asks deep splits (value_spot may (shape_of t) type room) (λ u. behind (value u) (loose_value t)) }
{}

/// A member of what a struct leads to.
pub fn members_reach()
    ensures { (whole : Sections) (main : ℕ) (local_size : List ℕ) (rank : ℕ → ℕ) (f : Frame) → AreSorted whole → (s : Flow) (asks : List ℕ) (deep : ℕ) (splits : Bool) (spot : Spot) (shape : Option Shape) (other room number : ℕ) (reach : Emit Reached) → spot.shape ≡ None → spot.room ≡ suc room → Parts whole main local_size rank f spot.home spot.may spot.type (Fixed number) other → Stands whole main local_size rank f spot.home shape other → Reaches whole main local_size rank f s asks deep splits spot reach → Reaches whole main local_size rank f s asks deep splits (part_spot whole spot (Fixed number) shape other room) (λ u. behind (reach u) (λ r. flows.given (part_of r (Fixed number)))) }
{}

/// Components of a vector, or of what is picked of one: where they are stored, none is there twice.
pub fn swizzles_reach()
    ensures { (whole : Sections) (main : ℕ) (local_size : List ℕ) (rank : ℕ → ℕ) (f : Frame) → AreSorted whole → (s : Flow) (asks : List ℕ) (deep : ℕ) (splits : Bool) (spot : Spot) (shape : Shape) (positions : List ℕ) (reach : Emit Reached) → spot.shape ≡ Some shape → 1 ≤ length positions → length positions ≤ 4 → AreBelow shape.1 positions → (spot.may.stores ≡ true → length positions ≤ shape.1) → Reaches whole main local_size rank f s asks deep splits spot reach → Reaches whole main local_size rank f s asks deep splits (swizzle_spot spot (shape.0, length positions)) (λ u. behind (reach u) (λ r. flows.given (swizzled shape positions r))) }
{}

/// A scalar or vector may be read, stored, updated and pointed to where an expression leads, as far as is known of it.
pub fn places_serve()
    ensures reads { (whole : Sections) (main : ℕ) (local_size : List ℕ) (rank : ℕ → ℕ) (f : Frame) → AreSorted whole → (given : List ℕ) (spot : Spot) (shape : Shape) (r : Reached) → spot.shape ≡ Some shape → IsReached whole main local_size rank f given spot r → spot.may.reads ≡ true → MayRead whole main local_size rank f given shape r }
    ensures stores { (whole : Sections) (main : ℕ) (local_size : List ℕ) (rank : ℕ → ℕ) (f : Frame) → AreSorted whole → (given : List ℕ) (spot : Spot) (shape : Shape) (r : Reached) → spot.shape ≡ Some shape → IsReached whole main local_size rank f given spot r → spot.may.stores ≡ true → MayStore whole main local_size rank f given shape r }
    ensures updates { (whole : Sections) (main : ℕ) (local_size : List ℕ) (rank : ℕ → ℕ) (f : Frame) → AreSorted whole → (given : List ℕ) (spot : Spot) (shape : Shape) (r : Reached) → spot.shape ≡ Some shape → IsReached whole main local_size rank f given spot r → spot.may.reads ≡ true → spot.may.stores ≡ true → MayUpdate whole main local_size rank f given shape r }
    ensures points { (whole : Sections) (main : ℕ) (local_size : List ℕ) (rank : ℕ → ℕ) (f : Frame) → AreSorted whole → (given : List ℕ) (spot : Spot) (shape : Shape) (r : Reached) → spot.shape ≡ Some shape → IsReached whole main local_size rank f given spot r → MayPoint whole main local_size rank f given shape r }
{}
