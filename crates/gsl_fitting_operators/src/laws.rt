//! Laws of the definitions: calls that do nothing, whose contracts are the laws.

ghost use Rattle.std.specs.Prelude.{◌≡◌, ◌⊎◌, ℕ, List, true};
ghost use Rattle.gsl_types.specs.declared.ty.Scalar.{Scalar};
ghost use Rattle.gsl_values.specs.declared.op.BinaryOp.{BinaryOp};
ghost use Rattle.gsl_values.specs.declared.op.UnaryOp.{UnaryOp};
ghost use Rattle.gsl_tree.specs.Shapes.{Shape, flag, is_boolean, is_integer};
ghost use Rattle.gsl_tree.specs.declared.expr.LogicOp.{LogicOp};
ghost use Rattle.gsl_tree.specs.declared.expr.StepOp.{StepOp};
ghost use Rattle.gsl_spv.specs.Sections.{Sections};
ghost use Rattle.gsl_lower_law.specs.Operands.{Fit};
ghost use Rattle.gsl_lower_values.specs.Operators as operators;
ghost use Rattle.gsl_lower_values.specs.declared.operand.Operand.{Operand};
ghost use Rattle.gsl_fitting.specs.Fits.{Frame};
ghost use Rattle.gsl_fitting_operators.specs.Operands.{Suits, SuitsOne, pair_shape};
ghost use Rattle.gsl_fitting_types.specs.Making.{AreSorted, Comes, GivesValue, IsSized, IsValue, Sorts};

/// An operator on one scalar or vector, and `++` and `--`.
pub fn unary_fits()
    ensures sorts { (which : UnaryOp) (a : Operand) (s : Sections) → Sorts s (operators.unary which a s) }
    ensures comes { (whole : Sections) (main : ℕ) (local_size : List ℕ) (rank : ℕ → ℕ) (f : Frame) → AreSorted whole → (given : List ℕ) (which : UnaryOp) (a : Operand) (before : Sections) → IsSized a.shape → SuitsOne which a.shape → IsValue whole main local_size rank f given a.shape a.id → Comes whole main local_size rank f given (GivesValue whole main local_size rank f a.shape) before (operators.unary which a before) }
    ensures steps { (whole : Sections) (main : ℕ) (local_size : List ℕ) (rank : ℕ → ℕ) (f : Frame) → AreSorted whole → (given : List ℕ) (which : StepOp) (a : Operand) (before : Sections) → IsSized a.shape → is_integer a.shape.0 ≡ true → IsValue whole main local_size rank f given a.shape a.id → Comes whole main local_size rank f given (GivesValue whole main local_size rank f a.shape) before (operators.stepped which a before) }
{}

/// A conversion, whatever scalars it is from and to.
pub fn conversions_fit()
    ensures sorts { (to : Scalar) (a : Operand) (s : Sections) → Sorts s (operators.converted to a s) }
    ensures comes { (whole : Sections) (main : ℕ) (local_size : List ℕ) (rank : ℕ → ℕ) (f : Frame) → AreSorted whole → (given : List ℕ) (to : Scalar) (a : Operand) (before : Sections) → IsSized a.shape → IsValue whole main local_size rank f given a.shape a.id → Comes whole main local_size rank f given (GivesValue whole main local_size rank f (to, a.shape.1)) before (operators.converted to a before) }
    ensures spread { (whole : Sections) (main : ℕ) (local_size : List ℕ) (rank : ℕ → ℕ) (f : Frame) → AreSorted whole → (given : List ℕ) (count : ℕ) (a : Operand) (before : Sections) → IsSized (a.shape.0, count) → (a.shape.1 ≡ count) ⊎ (a.shape.1 ≡ 1) → IsValue whole main local_size rank f given a.shape a.id → Comes whole main local_size rank f given (GivesValue whole main local_size rank f (a.shape.0, count)) before (operators.spread count a before) }
{}

/// An operator on two: of one size, or one of them a scalar that serves each component of the other.
pub fn binary_fits()
    ensures sorts { (which : BinaryOp) (a b : Operand) (s : Sections) → Sorts s (operators.binary which a b s) }
    ensures comes { (whole : Sections) (main : ℕ) (local_size : List ℕ) (rank : ℕ → ℕ) (f : Frame) → AreSorted whole → (given : List ℕ) (which : BinaryOp) (a b : Operand) (before : Sections) → IsSized a.shape → IsSized b.shape → Fit which a.shape.1 b.shape.1 → Suits which a.shape.0 b.shape.0 → IsValue whole main local_size rank f given a.shape a.id → IsValue whole main local_size rank f given b.shape b.id → Comes whole main local_size rank f given (GivesValue whole main local_size rank f (pair_shape which a.shape b.shape)) before (operators.binary which a b before) }
{}

/// Truth values of which both are there, and one of two values that is selected.
pub fn choices_fit()
    ensures logical { (whole : Sections) (main : ℕ) (local_size : List ℕ) (rank : ℕ → ℕ) (f : Frame) → AreSorted whole → (given : List ℕ) (which : LogicOp) (a b : ℕ) (before : Sections) → IsValue whole main local_size rank f given flag a → IsValue whole main local_size rank f given flag b → Comes whole main local_size rank f given (GivesValue whole main local_size rank f flag) before (operators.logical which a b before) }
    ensures selected { (whole : Sections) (main : ℕ) (local_size : List ℕ) (rank : ℕ → ℕ) (f : Frame) → AreSorted whole → (given : List ℕ) (shape condition : Shape) (c a b : ℕ) (before : Sections) → IsSized shape → is_boolean condition.0 ≡ true → shape.1 ≡ condition.1 → IsValue whole main local_size rank f given condition c → IsValue whole main local_size rank f given shape a → IsValue whole main local_size rank f given shape b → Comes whole main local_size rank f given (GivesValue whole main local_size rank f shape) before (operators.selected shape c a b before) }
{}
