//! Laws of the definitions: calls that do nothing, whose contracts are the laws.

ghost use Rattle.std.specs.Prelude.{◌≡◌, Bool, length, true};
ghost use Rattle.gsl_types.specs.Known.{AreStructs, IsSound};
ghost use Rattle.gsl_tree.specs.Around.{Around};
ghost use Rattle.gsl_tree.specs.Expressions.{IsExpr};
ghost use Rattle.gsl_tree.specs.Trees.{Throughout, type_of};
ghost use Rattle.gsl_tree.specs.declared.expr.Expr.{Expr};
ghost use Rattle.gsl_meaning.specs.Expressions.{Setting, means};
ghost use Rattle.gsl_lower_traits.specs.Traits.{traits_of};
ghost use Rattle.gsl_lower_traits_law.specs.Quiet.{IsThere, MayBeThere};
ghost use Rattle.gsl_lower_traits_law.specs.Telling.{Tells};

/// An expression that calls no function of the program always comes to something, or strays where an index is out of bounds; a literal gives its number; and what may be
/// evaluated where it does not count has no labels.
pub fn traits_tell()
    ensures { (around : Around) (setting : Setting) (e : Expr) → IsExpr around e → Tells (traits_of e) (means setting e) }
{}

/// What may be evaluated where it does not count is there at once, whatever state a shader is in: it draws no choices, stores nothing and never strays. Of lengths of runtime arrays it is asked that blocks are seen in fewer than 2^32 bytes, or else that they are there; of other lengths, that they are words; and of swizzles, that they have their words.
pub fn quiet_is_there()
    ensures { (few : Bool) (around : Around) (setting : Setting) (e : Expr) → AreStructs around.structs → IsExpr around e → Throughout (λ (part : Expr). IsSound (length around.structs) (type_of part)) e → Throughout (MayBeThere few around setting) e → (traits_of e).quiet ≡ true → IsThere few around (type_of e) (means setting e).value }
{}
