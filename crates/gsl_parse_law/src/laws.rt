//! Laws of what the front end gives: calls that do nothing, whose contracts are the laws.

ghost use Rattle.std.specs.Prelude.{◌≡◌, ℕ, List, None, Ok};
ghost use Rattle.gsl_base.specs.declared.token.Token.{Token};
ghost use Rattle.gsl_syntax.specs.declared.statement.Global.{Global};
ghost use Rattle.gsl_syntax.specs.Nesting.{first_deep};
ghost use Rattle.gsl_syntax.specs.Sentences.{IsUnit};
ghost use Rattle.gsl_parse.specs.Judged.{unit_of};
ghost use Rattle.gsl_formed.specs.Formed.{IsParsed};
ghost use Rattle.gsl_parse_law.specs.Live.{AreLive};
ghost use Rattle.gsl_parse_law.specs.Sources.{tokens_in, unit_in};

/// The unit of a source file has all that the checker's law asks of a syntax tree.
pub fn sources_are_parsed()
    ensures { (number : ℕ) (source : List ℕ) (unit : List Global) → unit_in number source ≡ Ok unit → IsParsed unit }
{}

/// So has each unit that stands for tokens that do not nest too deeply, whose literals are words and whose names are short and have no zero
/// byte, and the unit that such tokens read as.
pub fn units_are_parsed()
    ensures derived { (tokens : List Token) (unit : List Global) → AreLive tokens → IsUnit unit tokens → first_deep tokens ≡ None → IsParsed unit }
    ensures read { (tokens : List Token) (unit : List Global) → AreLive tokens → unit_of tokens ≡ Ok unit → IsParsed unit }
{}

/// The tokens of a source file are such tokens.
pub fn tokens_are_live()
    ensures { (number : ℕ) (source : List ℕ) (tokens : List Token) → tokens_in number source ≡ Ok tokens → AreLive tokens }
{}
