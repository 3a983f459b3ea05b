//! Laws of the definitions: calls that do nothing, whose contracts are the laws.

ghost use Rattle.std.specs.Prelude.{◌≡◌, ◌≤◌, ℕ, List, Some, length, map};
ghost use Rattle.gsl_values.specs.declared.function.Builtin.{Builtin};
ghost use Rattle.gsl_tree.specs.Shapes.{Shape, built_shape};
ghost use Rattle.gsl_spv.specs.Sections.{Sections};
ghost use Rattle.gsl_lower_values.specs.Builtins.{called};
ghost use Rattle.gsl_lower_values.specs.Constructors.{built, picked, replaced};
ghost use Rattle.gsl_lower_values.specs.declared.operand.Operand.{Operand};
ghost use Rattle.gsl_fitting.specs.Fits.{Frame};
ghost use Rattle.gsl_fitting_builtins.specs.Arguments.{AreArguments, AreBelow, AreEnough};
ghost use Rattle.gsl_fitting_types.specs.Making.{AreSorted, Comes, GivesValue, IsSized, IsValue, Sorts};

/// Components that are picked, and a vector with others at some positions.
pub fn swizzles_fit()
    ensures sorts { (a : Operand) (positions : List ℕ) (s : Sections) → Sorts s (picked a positions s) }
    ensures picked { (whole : Sections) (main : ℕ) (local_size : List ℕ) (rank : ℕ → ℕ) (f : Frame) → AreSorted whole → (given : List ℕ) (a : Operand) (positions : List ℕ) (before : Sections) → IsSized (a.shape.0, length positions) → AreBelow a.shape.1 positions → IsValue whole main local_size rank f given a.shape a.id → Comes whole main local_size rank f given (GivesValue whole main local_size rank f (a.shape.0, length positions)) before (picked a positions before) }
    ensures replaced { (whole : Sections) (main : ℕ) (local_size : List ℕ) (rank : ℕ → ℕ) (f : Frame) → AreSorted whole → (given : List ℕ) (a : Operand) (positions : List ℕ) (new : ℕ) (before : Sections) → IsSized a.shape → 2 ≤ length positions → length positions ≤ a.shape.1 → IsValue whole main local_size rank f given a.shape a.id → IsValue whole main local_size rank f given (a.shape.0, length positions) new → Comes whole main local_size rank f given (GivesValue whole main local_size rank f a.shape) before (replaced a positions new before) }
{}

/// A constructor of a scalar or vector.
pub fn constructors_fit()
    ensures sorts { (shape : Shape) (args : List Operand) (s : Sections) → Sorts s (built shape args s) }
    ensures comes { (whole : Sections) (main : ℕ) (local_size : List ℕ) (rank : ℕ → ℕ) (f : Frame) → AreSorted whole → (given : List ℕ) (shape : Shape) (args : List Operand) (before : Sections) → IsSized shape → AreEnough shape args → AreArguments whole main local_size rank f given args → Comes whole main local_size rank f given (GivesValue whole main local_size rank f shape) before (built shape args before) }
{}

/// A built-in function on arguments that the language lets it have.
pub fn builtins_fit()
    ensures sorts { (which : Builtin) (args : List Operand) (s : Sections) → Sorts s (called which args s) }
    ensures comes { (whole : Sections) (main : ℕ) (local_size : List ℕ) (rank : ℕ → ℕ) (f : Frame) → AreSorted whole → (given : List ℕ) (which : Builtin) (args : List Operand) (shape : Shape) (before : Sections) → built_shape which (map (λ (a : Operand). a.shape) args) ≡ Some shape → AreArguments whole main local_size rank f given args → Comes whole main local_size rank f given (GivesValue whole main local_size rank f shape) before (called which args before) }
{}
