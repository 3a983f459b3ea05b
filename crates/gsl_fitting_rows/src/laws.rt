//! Laws of the definitions: calls that do nothing, whose contracts are the laws.

ghost use Rattle.std.specs.Prelude.{◌≡◌, ℕ, List, None, ◌∷◌, Some, map};
ghost use Rattle.gsl_types.specs.declared.ty.Ty.{Ty};
ghost use Rattle.gsl_values.specs.declared.function.Builtin.{Builtin};
ghost use Rattle.gsl_tree.specs.Shapes.{Shape, built_shape, shape_of};
ghost use Rattle.gsl_spv.specs.Sections.{Sections};
ghost use Rattle.gsl_lower_holders.specs.Flow.{Flow};
ghost use Rattle.gsl_lower_expr.specs.Parts.{Lower, any_splits, called_of, constructed, sequence, shape_or};
ghost use Rattle.gsl_fitting.specs.Fits.{Frame};
ghost use Rattle.gsl_fitting_types.specs.Making.{AreSorted, made};
ghost use Rattle.gsl_fitting_flow.specs.Flowing.{IsTypeFor};
ghost use Rattle.gsl_fitting_expr.specs.Evaluating.{Evaluates, IsPlain};
ghost use Rattle.gsl_fitting_rows.specs.Rows.{ArePlain, EvaluateEach, Fill, HaveTypes, IsMadeOf, Row, asked_in, asked_in_turn, last_type, types_in};

/// Built-in functions of scalars and vectors that the language lets them have.
pub fn calls_of_builtins_evaluate()
    ensures { (whole : Sections) (main : ℕ) (local_size : List ℕ) (rank : ℕ → ℕ) (f : Frame) → AreSorted whole → (s : Flow) (deep type : ℕ) (which : Builtin) (args : List Lower) (row : Row) (shape : Shape) → IsPlain whole main local_size rank f shape type → built_shape which (map (λ (e : Lower). shape_or e.ty) args) ≡ Some shape → EvaluateEach whole main local_size rank f s deep args row → HaveTypes whole main local_size rank f s args row → ArePlain whole main local_size rank f args row → Evaluates whole main local_size rank f s (asked_in args row) deep (any_splits args) type (called_of which args) }
{}

/// Constructors: of a scalar or vector from as many components as it has or from one for all of them, and of an array or struct from its
/// parts.
pub fn constructors_evaluate()
    ensures built { (whole : Sections) (main : ℕ) (local_size : List ℕ) (rank : ℕ → ℕ) (f : Frame) → AreSorted whole → (s : Flow) (deep type : ℕ) (t : Ty) (args : List Lower) (row : Row) (shape : Shape) → shape_of t ≡ Some shape → IsPlain whole main local_size rank f shape type → Fill shape args → EvaluateEach whole main local_size rank f s deep args row → HaveTypes whole main local_size rank f s args row → ArePlain whole main local_size rank f args row → Evaluates whole main local_size rank f s (asked_in args row) deep (any_splits args) type (constructed t args) }
    ensures together { (whole : Sections) (main : ℕ) (local_size : List ℕ) (rank : ℕ → ℕ) (f : Frame) → AreSorted whole → (s : Flow) (deep type : ℕ) (t : Ty) (args : List Lower) (row : Row) → shape_of t ≡ None → IsTypeFor whole main local_size rank f s.place t type → IsMadeOf (made whole main local_size rank f) (types_in row) type → EvaluateEach whole main local_size rank f s deep args row → HaveTypes whole main local_size rank f s args row → Evaluates whole main local_size rank f s (asked_in args row) deep (any_splits args) type (constructed t args) }
{}

/// Expressions each in its turn, of which the last is the value.
pub fn sequences_evaluate()
    ensures { (whole : Sections) (main : ℕ) (local_size : List ℕ) (rank : ℕ → ℕ) (f : Frame) → AreSorted whole → (s : Flow) (deep : ℕ) (first : Lower) (more : List Lower) (one : ℕ × List ℕ) (row : Row) → EvaluateEach whole main local_size rank f s deep (first ∷ more) (one ∷ row) → Evaluates whole main local_size rank f s (asked_in_turn (one ∷ row)) deep (any_splits (first ∷ more)) (last_type one.0 row) (sequence 0 (first ∷ more)) }
{}
