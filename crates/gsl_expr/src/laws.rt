//! Laws of the definitions: calls that do nothing, whose contracts are the laws.

ghost use Rattle.std.specs.Prelude.{◌≡◌, ◌≤◌, ◌++◌, List, ℕ, Ok};
ghost use Rattle.gsl_base.specs.declared.token.Token.{Token};
ghost use Rattle.gsl_syntax.specs.declared.expr.Expr.{Expr as Tree};
ghost use Rattle.gsl_syntax.specs.Phrases.{IsExpr};
ghost use Rattle.gsl_expr.specs.Expressions as spec;

/// What is read of tokens is an expression that the grammar derives from exactly the tokens that were taken: a whole
/// one at level 0, one without a comma at level 1, and a conditional one at level 2.
pub fn read_is_derived()
    ensures { (depth level : ℕ) (tokens rest : List Token) (tree : Tree) → level ≤ 2 → spec.expr depth level tokens ≡ Ok (tree, rest) → (taken : List Token) × (tokens ≡ taken ++ rest) × IsExpr level tree taken }
{}
