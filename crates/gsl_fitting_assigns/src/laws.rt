//! Laws of the definitions: calls that do nothing, whose contracts are the laws.

ghost use Rattle.std.specs.Prelude.{◌≡◌, ◌++◌, ◌||◌, ℕ, Bool, List, Some, true};
ghost use Rattle.gsl_types.specs.declared.ty.StructType.{StructType};
ghost use Rattle.gsl_values.specs.declared.op.BinaryOp.{BinaryOp};
ghost use Rattle.gsl_tree.specs.Shapes.{is_integer, shape_of};
ghost use Rattle.gsl_tree.specs.declared.expr.StepOp.{StepOp};
ghost use Rattle.gsl_spv.specs.Sections.{Sections};
ghost use Rattle.gsl_lower_law.specs.Operands.{Fit};
ghost use Rattle.gsl_lower_holders.specs.Flow.{Flow};
ghost use Rattle.gsl_lower_expr.specs.Parts.{Lower, assigned, shape_or, stepped, updated};
ghost use Rattle.gsl_fitting.specs.Fits.{Frame};
ghost use Rattle.gsl_fitting_types.specs.Making.{AreSorted};
ghost use Rattle.gsl_fitting_operators.specs.Operands.{Suits, pair_shape};
ghost use Rattle.gsl_fitting_flow.specs.Flowing.{IsTypeFor, asked_if};
ghost use Rattle.gsl_fitting_expr.specs.Evaluating.{Evaluates, IsPlain};
ghost use Rattle.gsl_fitting_reaching.specs.Reached.{Reaches, Spot, asked_of};
ghost use Rattle.gsl_fitting_reads.specs.Moving.{IsPut};
ghost use Rattle.gsl_fitting_reads.specs.Waiting.{held_if};
ghost use Rattle.gsl_fitting_indexes.specs.Indexes.{IsTested};

/// An assignment: what its left side leads to is found first, and waits where the right side has labels.
pub fn assignments_evaluate()
    ensures { (whole : Sections) (main : ℕ) (local_size : List ℕ) (rank : ℕ → ℕ) (f : Frame) → AreSorted whole → (s : Flow) (asks more : List ℕ) (deep : ℕ) (splits : Bool) (structs : List StructType) (a b : Lower) (spot : Spot) (type : ℕ) → spot.may.stores ≡ true → IsTested whole main local_size rank f structs a.ty spot b.traits.calls → IsPut whole main local_size rank f s structs a.ty spot type → Reaches whole main local_size rank f s asks deep splits spot a.reach → Evaluates whole main local_size rank f s more deep b.traits.splits type b.value → Evaluates whole main local_size rank f s ((asks ++ held_if b.traits.splits (asked_of whole spot)) ++ more) deep (splits || b.traits.splits) type (assigned structs a b) }
{}

/// `op=`: the old value and what the left side leads to wait where the right side has labels, and else one pointer serves for both, but for
/// several components.
pub fn updates_evaluate()
    ensures { (whole : Sections) (main : ℕ) (local_size : List ℕ) (rank : ℕ → ℕ) (f : Frame) → AreSorted whole → (s : Flow) (asks more : List ℕ) (deep : ℕ) (splits : Bool) (structs : List StructType) (which : BinaryOp) (a b : Lower) (spot : Spot) (type second : ℕ) → shape_of a.ty ≡ Some (shape_or a.ty) → spot.shape ≡ Some (shape_or a.ty) → spot.may.reads ≡ true → spot.may.stores ≡ true → IsTypeFor whole main local_size rank f s.place a.ty type → IsPlain whole main local_size rank f (shape_or a.ty) type → IsPlain whole main local_size rank f (shape_or b.ty) second → Fit which (shape_or a.ty).1 (shape_or b.ty).1 → Suits which (shape_or a.ty).0 (shape_or b.ty).0 → pair_shape which (shape_or a.ty) (shape_or b.ty) ≡ shape_or a.ty → Reaches whole main local_size rank f s asks deep splits spot a.reach → Evaluates whole main local_size rank f s more deep b.traits.splits second b.value → Evaluates whole main local_size rank f s ((asks ++ (asked_if b.traits.splits type ++ held_if b.traits.splits (asked_of whole spot))) ++ more) deep (splits || b.traits.splits) type (updated structs which a b) }
{}

/// `++` and `--`.
pub fn steps_evaluate()
    ensures { (whole : Sections) (main : ℕ) (local_size : List ℕ) (rank : ℕ → ℕ) (f : Frame) → AreSorted whole → (s : Flow) (asks : List ℕ) (deep : ℕ) (splits : Bool) (structs : List StructType) (which : StepOp) (a : Lower) (spot : Spot) (type : ℕ) → shape_of a.ty ≡ Some (shape_or a.ty) → spot.shape ≡ Some (shape_or a.ty) → spot.may.reads ≡ true → spot.may.stores ≡ true → IsPlain whole main local_size rank f (shape_or a.ty) type → is_integer (shape_or a.ty).0 ≡ true → Reaches whole main local_size rank f s asks deep splits spot a.reach → Evaluates whole main local_size rank f s asks deep splits type (stepped structs which a) }
{}
