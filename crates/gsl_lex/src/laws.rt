//! Laws of the definitions: calls that do nothing, whose contracts are the laws.

ghost use Rattle.std.specs.Prelude.{◌≡◌, ◌≢◌, ◌++◌, AllPairs, List, ℕ, map, Some, false};
ghost use Rattle.std.specs.List.{list_any};
ghost use Rattle.gsl_base.specs.declared.token.Raw.{Raw as RawToken};
ghost use Rattle.gsl_base.specs.Checked.{Checked};
ghost use Rattle.gsl_lex.specs.declared.text.Char.{Char};
ghost use Rattle.gsl_lex.specs.Cut.{Piece, Cutting, IsCutting, CutTo, chars_of};
ghost use Rattle.gsl_lex.specs.Raws.{IsLexed};
ghost use Rattle.gsl_lex.specs.Refused.{refused};
ghost use Rattle.gsl_lex.specs.Spellings.{puncts, keywords};
ghost use Rattle.gsl_lex.specs.Tables.{punct_of, key_of, is_refused};

/// A text has one cut into pieces, each the longest at its place, up to its end or up to the first comment that
/// is not closed; the pieces put together are the text.
pub fn one_cut()
    ensures some { (text : List Char) → (cutting : Cutting) × IsCutting text cutting }
    ensures one { (text : List Char) (a b : Cutting) → IsCutting text a → IsCutting text b → a ≡ b }
    ensures whole { (pieces : List Piece) (text rest : List Char) → CutTo pieces text rest → text ≡ chars_of pieces ++ rest }
{}

/// A source file has one list of raw tokens, or one fault.
pub fn one_answer()
    ensures { (unit : ℕ) (bytes : List ℕ) (a b : Checked (List RawToken)) → IsLexed unit bytes a → IsLexed unit bytes b → a ≡ b }
{}

/// Each row of a table says what its spelling is, no two rows of one table have one spelling, and no keyword is refused.
pub fn rows_are_rules()
    ensures puncts { map (λ row. punct_of row.0) puncts ≡ map (λ row. Some row.1) puncts }
    ensures keywords { map (λ row. key_of row.0) keywords ≡ map (λ row. Some row.1) keywords }
    ensures puncts_differ { AllPairs (λ a b. a ≢ b) (map (λ row. row.0) puncts) }
    ensures keywords_differ { AllPairs (λ a b. a ≢ b) (map (λ row. row.0) keywords) }
    ensures refused_differ { AllPairs (λ a b. a ≢ b) refused }
    ensures apart { list_any (λ row. is_refused row.0) keywords ≡ false }
{}
