//! Laws of the grammar.

ghost use Rattle.std.specs.Prelude.{◌≡◌, List};
ghost use Rattle.gsl_base.specs.declared.fault.Place.{Place};
ghost use Rattle.gsl_base.specs.declared.token.Token.{Token};
ghost use Rattle.gsl_syntax.specs.declared.statement.Global.{Global as Top};
ghost use Rattle.gsl_syntax.specs.declared.expr.Expr.{Expr as Tree};
ghost use Rattle.gsl_syntax.specs.Sentences.{IsUnit};
ghost use Rattle.gsl_syntax.specs.Phrases.{IsExpr};
ghost use Rattle.gsl_parse.specs.Judged.{FirstBad};

/// Tokens have at most one tree, be they a unit or an expression.
pub fn one_tree()
    ensures units { (tokens : List Token) (a b : List Top) → IsUnit a tokens → IsUnit b tokens → a ≡ b }
    ensures expressions { (tokens : List Token) (a b : Tree) → IsExpr 0 a tokens → IsExpr 0 b tokens → a ≡ b }
{}

/// Tokens have at most one place of a first bad token: where a fault of the grammar stands is determined by the grammar.
pub fn one_first_bad()
    ensures { (tokens : List Token) (p q : Place) → FirstBad IsUnit tokens p → FirstBad IsUnit tokens q → p ≡ q }
{}
