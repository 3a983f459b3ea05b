//! Laws of the definitions: calls that do nothing, whose contracts are the laws.

ghost use Rattle.std.specs.Prelude.{◌≡◌, ◌+◌, ◌++◌, ◌||◌, ℕ, Bool, List, [], ◌∷◌, false, length, suc, true};
ghost use Rattle.gsl_types.specs.declared.ty.Ty.{Ty};
ghost use Rattle.gsl_tree.specs.Shapes.{Shape, flag};
ghost use Rattle.gsl_tree.specs.declared.expr.LogicOp.{LogicOp};
ghost use Rattle.gsl_spv.specs.Growing.{Extends};
ghost use Rattle.gsl_spv.specs.Sections.{Sections};
ghost use Rattle.gsl_lower_values.specs.Building.{Built};
ghost use Rattle.gsl_lower_holders.specs.Flow.{Emit, Flow, Lowered, behind, built_in};
ghost use Rattle.gsl_lower_holders.specs.Waiting.{fetch, hold};
ghost use Rattle.gsl_lower_holders.specs.Ways.{begin_choice, begin_short, join, other_way};
ghost use Rattle.gsl_fitting.specs.Fits.{Frame};
ghost use Rattle.gsl_fitting_types.specs.Making.{AreSorted, Comes, GivesValue, IsTypeOf, IsValue, Sorts};
ghost use Rattle.gsl_fitting_flow.specs.Flowing.{EmitStays, EmitTakes, FlowStays, Flows, GivesOf, IsOf, IsTypeFor, IsLater, Waits, Widens, asked_if, taken_if};

/// One part of lowering behind another.
pub fn parts_follow()
    ensures stays { (before : Flow) (first : Lowered ℕ) (next : ℕ → Emit ℕ) → EmitStays before first → ((a : ℕ) (s : Flow) → EmitStays s (next a s)) → EmitStays before (behind first next) }
    ensures takes { (n k : ℕ) (before : Flow) (first : Lowered ℕ) (next : ℕ → Emit ℕ) → EmitTakes n before first → ((a : ℕ) (s : Flow) → EmitTakes k s (next a s)) → EmitTakes (n + k) before (behind first next) }
    ensures flows { (whole : Sections) (main : ℕ) (local_size : List ℕ) (rank : ℕ → ℕ) (f : Frame) (asks more : List ℕ) (deep : ℕ) (first second : Bool) (given : List ℕ) (type other : ℕ) (before : Flow) (lowered : Lowered ℕ) (next : ℕ → Emit ℕ) → EmitStays before lowered → Flows whole main local_size rank f asks deep first given (GivesOf whole main local_size rank f type) before lowered → ((a : ℕ) (s : Flow) → EmitStays s (next a s)) → ((a : ℕ) (s : Flow) (now : List ℕ) → IsOf whole main local_size rank f now type a → (first ≡ false → Widens given now) → FlowStays before s → Extends s.sections whole → Flows whole main local_size rank f more deep second now (GivesOf whole main local_size rank f other) s (next a s)) → Flows whole main local_size rank f (asks ++ more) deep (first || second) given (GivesOf whole main local_size rank f other) before (behind lowered next) }
{}

/// A step of the builder puts no label.
pub fn steps_flow()
    ensures stays { (s : Flow) (built : Built ℕ) → Sorts s.sections built → EmitStays s (built_in s.place built) }
    ensures takes { (s : Flow) (built : Built ℕ) → EmitTakes 0 s (built_in s.place built) }
    ensures flows { (whole : Sections) (main : ℕ) (local_size : List ℕ) (rank : ℕ → ℕ) (f : Frame) (deep : ℕ) (given : List ℕ) (shape : Shape) (s : Flow) (built : Built ℕ) → Comes whole main local_size rank f given (GivesValue whole main local_size rank f shape) s.sections built → Flows whole main local_size rank f [] deep false given (λ id now after. IsValue whole main local_size rank f now shape id) s (built_in s.place built) }
{}

/// A value waits in a holder while blocks end and begin, and is there again behind them; where none do, it stays as it is.
pub fn values_wait()
    ensures held_stays { (b : Bool) (value : ℕ) (s : Flow) → EmitStays s (hold b value s) }
    ensures fetched_stays { (b : Bool) (t : Ty) (kept : ℕ) (s : Flow) → EmitStays s (fetch b t kept s) }
    ensures held_takes { (b : Bool) (value : ℕ) (s : Flow) → EmitTakes (taken_if b) s (hold b value s) }
    ensures fetched_takes { (b : Bool) (t : Ty) (kept : ℕ) (s : Flow) → EmitTakes 0 s (fetch b t kept s) }
    ensures held { (whole : Sections) (main : ℕ) (local_size : List ℕ) (rank : ℕ → ℕ) (f : Frame) → AreSorted whole → (b : Bool) (deep : ℕ) (given : List ℕ) (type value : ℕ) (s : Flow) → IsOf whole main local_size rank f given type value → Flows whole main local_size rank f (asked_if b type) deep false given (λ kept now after. Waits whole main local_size rank f b now type kept) s (hold b value s) }
    ensures on { (whole : Sections) (main : ℕ) (local_size : List ℕ) (rank : ℕ → ℕ) (f : Frame) → AreSorted whole → (b : Bool) (given now : List ℕ) (type id : ℕ) → (b ≡ false → Widens given now) → Waits whole main local_size rank f b given type id → Waits whole main local_size rank f b now type id }
    ensures fetched { (whole : Sections) (main : ℕ) (local_size : List ℕ) (rank : ℕ → ℕ) (f : Frame) → AreSorted whole → (b : Bool) (deep : ℕ) (given : List ℕ) (t : Ty) (type kept : ℕ) (s : Flow) → IsTypeFor whole main local_size rank f s.place t type → Waits whole main local_size rank f b given type kept → Flows whole main local_size rank f [] deep false given (GivesOf whole main local_size rank f type) s (fetch b t kept s) }
{}

/// The right operand of `&&` and `||` in a block of its own, which is entered where the left one does not decide, and the block where
/// both ways meet.
pub fn right_operands_fit()
    ensures stays { (which : LogicOp) (t : Ty) (second : Emit ℕ) (s : Flow) (first : Lowered ℕ) → EmitStays s first → ((u : Flow) → EmitStays u (second u)) → EmitStays s (behind (behind first (begin_short which)) (λ f u. behind (second u) (join t f))) }
    ensures takes { (which : LogicOp) (t : Ty) (second : Emit ℕ) (n k : ℕ) (s : Flow) (first : Lowered ℕ) → EmitTakes n s first → ((u : Flow) → EmitTakes k u (second u)) → EmitTakes (n + (1 + k)) s (behind (behind first (begin_short which)) (λ f u. behind (second u) (join t f))) }
    ensures flows { (whole : Sections) (main : ℕ) (local_size : List ℕ) (rank : ℕ → ℕ) (f : Frame) → AreSorted whole → (which : LogicOp) (t : Ty) (second : Emit ℕ) (type deep : ℕ) (asks more : List ℕ) (first_splits splits : Bool) (given : List ℕ) (s : Flow) (first : Lowered ℕ) → IsTypeOf whole flag type → IsTypeFor whole main local_size rank f s.place t type → EmitStays s first → Flows whole main local_size rank f asks (suc deep) first_splits given (GivesOf whole main local_size rank f type) s first → ((u : Flow) → EmitStays u (second u)) → ((u : Flow) → IsLater s u → Flows whole main local_size rank f more deep splits [] (GivesOf whole main local_size rank f type) u (second u)) → Flows whole main local_size rank f (asks ++ type ∷ more) (suc deep) true given (GivesOf whole main local_size rank f type) s (behind (behind first (begin_short which)) (λ f u. behind (second u) (join t f))) }
{}

/// One of two values, each in a block of its own, and the block where both ways meet.
pub fn choices_fit()
    ensures stays { (t : Ty) (a b : Emit ℕ) (s : Flow) (test : Lowered ℕ) → EmitStays s test → ((u : Flow) → EmitStays u (a u)) → ((u : Flow) → EmitStays u (b u)) → EmitStays s (behind (behind test begin_choice) (λ f u. behind (behind (a u) (other_way f)) (λ done v. behind (b v) (join t f)))) }
    ensures takes { (t : Ty) (a b : Emit ℕ) (n j k : ℕ) (s : Flow) (test : Lowered ℕ) → EmitTakes n s test → ((u : Flow) → EmitTakes j u (a u)) → ((u : Flow) → EmitTakes k u (b u)) → EmitTakes (n + (1 + (j + k))) s (behind (behind test begin_choice) (λ f u. behind (behind (a u) (other_way f)) (λ done v. behind (b v) (join t f)))) }
    ensures flows { (whole : Sections) (main : ℕ) (local_size : List ℕ) (rank : ℕ → ℕ) (f : Frame) → AreSorted whole → (t : Ty) (a b : Emit ℕ) (truth type deep : ℕ) (tests asks more : List ℕ) (splits one_splits two_splits : Bool) (given : List ℕ) (s : Flow) (test : Lowered ℕ) → IsTypeOf whole flag truth → IsTypeFor whole main local_size rank f s.place t type → EmitStays s test → Flows whole main local_size rank f tests (suc deep) splits given (GivesOf whole main local_size rank f truth) s test → ((u : Flow) → EmitStays u (a u)) → ((u : Flow) → EmitStays u (b u)) → ((u : Flow) → IsLater s u → Flows whole main local_size rank f asks deep one_splits [] (GivesOf whole main local_size rank f type) u (a u)) → ((u : Flow) → IsLater s u → Flows whole main local_size rank f more deep two_splits [] (GivesOf whole main local_size rank f type) u (b u)) → Flows whole main local_size rank f (tests ++ type ∷ (asks ++ more)) (suc deep) true given (GivesOf whole main local_size rank f type) s (behind (behind test begin_choice) (λ f u. behind (behind (a u) (other_way f)) (λ done v. behind (b v) (join t f)))) }
{}
