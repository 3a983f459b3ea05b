//! A law of the definitions: a call that does nothing, whose contract is the law.

ghost use Rattle.std.specs.Prelude.{◌≡◌, ◌++◌, ℕ, Bool, List, false};
ghost use Rattle.gsl_types.specs.declared.ty.Ty.{Ty};
ghost use Rattle.gsl_tree.specs.Shapes.{flag};
ghost use Rattle.gsl_spv.specs.Sections.{Sections};
ghost use Rattle.gsl_lower_holders.specs.Flow.{Flow};
ghost use Rattle.gsl_lower_expr.specs.Parts.{Lower, picked_one, shape_or};
ghost use Rattle.gsl_fitting.specs.Fits.{Frame};
ghost use Rattle.gsl_fitting_types.specs.Making.{AreSorted};
ghost use Rattle.gsl_fitting_expr.specs.Evaluating.{Evaluates, IsPlain};

/// One of two scalars that are both there, neither of which has labels.
pub fn picks_evaluate()
    ensures { (whole : Sections) (main : ℕ) (local_size : List ℕ) (rank : ℕ → ℕ) (f : Frame) → AreSorted whole → (s : Flow) (tests asks more : List ℕ) (deep truth type : ℕ) (splits : Bool) (t : Ty) (test a b : Lower) → IsPlain whole main local_size rank f flag truth → IsPlain whole main local_size rank f (shape_or t) type → (shape_or t).1 ≡ 1 → Evaluates whole main local_size rank f s tests deep splits truth test.value → Evaluates whole main local_size rank f s asks deep false type a.value → Evaluates whole main local_size rank f s more deep false type b.value → Evaluates whole main local_size rank f s (tests ++ (asks ++ more)) deep splits type (picked_one t test a b) }
{}
