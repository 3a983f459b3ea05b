//! Laws of the definitions: calls that do nothing, whose contracts are the laws.

ghost use Rattle.std.specs.Prelude.{◌≡◌, ◌++◌, ◌||◌, ℕ, Bool, List, [], ◌∷◌, Some, false, length, suc, true};
ghost use Rattle.gsl_types.specs.declared.ty.Scalar.{Scalar};
ghost use Rattle.gsl_types.specs.declared.ty.StructType.{StructType};
ghost use Rattle.gsl_types.specs.declared.ty.Ty.{Ty};
ghost use Rattle.gsl_values.specs.declared.op.BinaryOp.{BinaryOp};
ghost use Rattle.gsl_values.specs.declared.op.UnaryOp.{UnaryOp};
ghost use Rattle.gsl_values.specs.declared.value.Value.{Value};
ghost use Rattle.gsl_tree.specs.Shapes.{Shape, flag, shape_of};
ghost use Rattle.gsl_tree.specs.Values.{components_in};
ghost use Rattle.gsl_tree.specs.declared.expr.LogicOp.{LogicOp};
ghost use Rattle.gsl_spv.specs.Sections.{Sections};
ghost use Rattle.gsl_lower_law.specs.Operands.{Fit};
ghost use Rattle.gsl_lower_values.specs.Operators as operators;
ghost use Rattle.gsl_lower_holders.specs.Flow.{Flow, behind, lift};
ghost use Rattle.gsl_lower_expr.specs.Parts as parts;
ghost use Rattle.gsl_lower_expr.specs.Parts.{Lower, both, constant_by, forked, of_type, picked_one, shape_or, short};
ghost use Rattle.gsl_fitting.specs.Fits.{Frame};
ghost use Rattle.gsl_fitting_types.specs.Making.{AreSorted};
ghost use Rattle.gsl_fitting_operators.specs.Operands.{Suits, SuitsOne, pair_shape};
ghost use Rattle.gsl_fitting_flow.specs.Flowing.{IsTypeFor, asked_if};
ghost use Rattle.gsl_fitting_expr.specs.Evaluating.{Evaluates, IsPlain};

/// Operators and conversions of scalars and vectors: where the right operand has labels, the left one waits.
pub fn operators_evaluate()
    ensures unary { (whole : Sections) (main : ℕ) (local_size : List ℕ) (rank : ℕ → ℕ) (f : Frame) → AreSorted whole → (s : Flow) (asks : List ℕ) (deep : ℕ) (splits : Bool) (type : ℕ) (which : UnaryOp) (a : Lower) → IsPlain whole main local_size rank f (shape_or a.ty) type → SuitsOne which (shape_or a.ty) → Evaluates whole main local_size rank f s asks deep splits type a.value → Evaluates whole main local_size rank f s asks deep splits type (λ u. behind (a.value u) (λ x. lift (operators.unary which (of_type a x)))) }
    ensures converted { (whole : Sections) (main : ℕ) (local_size : List ℕ) (rank : ℕ → ℕ) (f : Frame) → AreSorted whole → (s : Flow) (asks : List ℕ) (deep : ℕ) (splits : Bool) (type other : ℕ) (to : Scalar) (a : Lower) → IsPlain whole main local_size rank f (shape_or a.ty) type → IsPlain whole main local_size rank f (to, (shape_or a.ty).1) other → Evaluates whole main local_size rank f s asks deep splits type a.value → Evaluates whole main local_size rank f s asks deep splits other (λ u. behind (a.value u) (λ x. lift (operators.converted to (of_type a x)))) }
    ensures binary { (whole : Sections) (main : ℕ) (local_size : List ℕ) (rank : ℕ → ℕ) (f : Frame) → AreSorted whole → (s : Flow) (asks more : List ℕ) (deep : ℕ) (one_splits : Bool) (type second_type other : ℕ) (structs : List StructType) (which : BinaryOp) (a b : Lower) (shape : Shape) → shape_of a.ty ≡ Some shape → IsTypeFor whole main local_size rank f s.place a.ty type → IsPlain whole main local_size rank f (shape_or a.ty) type → IsPlain whole main local_size rank f (shape_or b.ty) second_type → IsPlain whole main local_size rank f (pair_shape which (shape_or a.ty) (shape_or b.ty)) other → Fit which (shape_or a.ty).1 (shape_or b.ty).1 → Suits which (shape_or a.ty).0 (shape_or b.ty).0 → Evaluates whole main local_size rank f s asks deep one_splits type a.value → Evaluates whole main local_size rank f s more deep b.traits.splits second_type b.value → Evaluates whole main local_size rank f s (asks ++ (asked_if b.traits.splits type ++ more)) deep (one_splits || b.traits.splits) other (parts.binary structs which a b) }
{}

/// `&&`, `||` and `^^`, with both operands in turn, or with the right one in a block of its own.
pub fn truths_evaluate()
    ensures both { (whole : Sections) (main : ℕ) (local_size : List ℕ) (rank : ℕ → ℕ) (f : Frame) → AreSorted whole → (s : Flow) (asks more : List ℕ) (deep : ℕ) (one_splits : Bool) (type : ℕ) (which : LogicOp) (a b : Lower) → IsTypeFor whole main local_size rank f s.place a.ty type → IsPlain whole main local_size rank f flag type → Evaluates whole main local_size rank f s asks deep one_splits type a.value → Evaluates whole main local_size rank f s more deep b.traits.splits type b.value → Evaluates whole main local_size rank f s (asks ++ (asked_if b.traits.splits type ++ more)) deep (one_splits || b.traits.splits) type (both which a b) }
    ensures short { (whole : Sections) (main : ℕ) (local_size : List ℕ) (rank : ℕ → ℕ) (f : Frame) → AreSorted whole → (s : Flow) (asks more : List ℕ) (deep : ℕ) (one_splits two_splits : Bool) (type : ℕ) (which : LogicOp) (a b : Lower) → IsPlain whole main local_size rank f flag type → Evaluates whole main local_size rank f s asks (suc deep) one_splits type a.value → Evaluates whole main local_size rank f s more deep two_splits type b.value → Evaluates whole main local_size rank f s (asks ++ type ∷ more) (suc deep) true type (short which a b) }
{}

/// `?:`, with each value in a block of its own.
pub fn choices_evaluate()
    ensures { (whole : Sections) (main : ℕ) (local_size : List ℕ) (rank : ℕ → ℕ) (f : Frame) → AreSorted whole → (s : Flow) (tests asks more : List ℕ) (deep : ℕ) (splits one_splits two_splits : Bool) (truth type : ℕ) (t : Ty) (test a b : Lower) → IsPlain whole main local_size rank f flag truth → IsTypeFor whole main local_size rank f s.place t type → Evaluates whole main local_size rank f s tests (suc deep) splits truth test.value → Evaluates whole main local_size rank f s asks deep one_splits type a.value → Evaluates whole main local_size rank f s more deep two_splits type b.value → Evaluates whole main local_size rank f s (tests ++ type ∷ (asks ++ more)) (suc deep) true type (forked t test a b) }
{}

/// A constant, and a scalar of which both values are there, where no operand has labels.
pub fn values_evaluate()
    ensures constant { (whole : Sections) (main : ℕ) (local_size : List ℕ) (rank : ℕ → ℕ) (f : Frame) → AreSorted whole → (s : Flow) (deep type : ℕ) (shape : Shape) (v : Value) → IsPlain whole main local_size rank f shape type → length (components_in v) ≡ shape.1 → Evaluates whole main local_size rank f s [] deep false type (lift (constant_by shape v)) }
    ensures selected { (whole : Sections) (main : ℕ) (local_size : List ℕ) (rank : ℕ → ℕ) (f : Frame) → AreSorted whole → (s : Flow) (tests asks more : List ℕ) (deep truth type : ℕ) (t : Ty) (test a b : Lower) → IsPlain whole main local_size rank f flag truth → IsPlain whole main local_size rank f (shape_or t) type → (shape_or t).1 ≡ 1 → Evaluates whole main local_size rank f s tests deep false truth test.value → Evaluates whole main local_size rank f s asks deep false type a.value → Evaluates whole main local_size rank f s more deep false type b.value → Evaluates whole main local_size rank f s (tests ++ (asks ++ more)) deep false type (picked_one t test a b) }
{}
