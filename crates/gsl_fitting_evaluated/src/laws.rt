//! A law of the definitions: a call that does nothing, whose contract is the law.

ghost use Rattle.std.specs.Prelude.{ℕ, List, length};
ghost use Rattle.gsl_types.specs.Known.{IsSound};
ghost use Rattle.gsl_types.specs.declared.ty.Direction.{Direction};
ghost use Rattle.gsl_types.specs.declared.ty.Ty.{Ty};
ghost use Rattle.gsl_tree.specs.Expressions.{IsExpr};
ghost use Rattle.gsl_tree.specs.Trees.{Throughout, type_of};
ghost use Rattle.gsl_tree.specs.WellTyped.{AreWellTyped, around_body, program_lists};
ghost use Rattle.gsl_tree.specs.declared.expr.Expr.{Expr};
ghost use Rattle.gsl_tree.specs.declared.program.Program.{Program};
ghost use Rattle.gsl_spv.specs.Sections.{Sections};
ghost use Rattle.gsl_lower_holders.specs.Flow.{Flow};
ghost use Rattle.gsl_lower_used.specs.Lowered.{ThroughoutLowered};
ghost use Rattle.gsl_fitting.specs.Fits.{Frame};
ghost use Rattle.gsl_fitting_valued.specs.OfFittingKnown.{Asks, IsFitted};
ghost use Rattle.gsl_fitting_valued.specs.OfFittingKnown.{Knows};

/// A well typed expression fits, as it is lowered in the body of a function of which the place and the module know what is asked: one recursion
/// over all kinds of expressions. Nothing is asked of what `.length()` is taken of, which is not evaluated.
pub fn expressions_fit()
    ensures { (whole : Sections) (main : ℕ) (local_size : List ℕ) (rank : ℕ → ℕ) (f : Frame) (s : Flow) (p : Program) (params : List (Direction × Ty)) (locals : List Ty) (e : Expr) → AreWellTyped (program_lists p) → Knows whole main local_size rank f s p.structs (around_body (program_lists p) params locals) → IsExpr (around_body (program_lists p) params locals) e → Throughout (λ (part : Expr). IsSound (length p.structs) (type_of part)) e → ThroughoutLowered p.prototypes (Asks whole main local_size rank f s p) e → IsFitted whole main local_size rank f s p params locals e }
{}
