//! Laws of the definitions: calls that do nothing, whose contracts are the laws.

ghost use Rattle.std.specs.Prelude.{◌≡◌, ◌≢◌, ◌⊎◌, List, None, Some, ℕ};
ghost use Rattle.gsl_values.specs.declared.value.Value.{Value};
ghost use Rattle.gsl_tree.specs.Constants.{constant_of, gives, standing};
ghost use Rattle.gsl_tree.specs.declared.expr.Expr.{Expr};
ghost use Rattle.gsl_tree.specs.declared.folded.Consts.{Consts};
ghost use Rattle.gsl_tree.specs.declared.folded.Folded.TheVariants.{Free, Known, NotConstant};
ghost use Rattle.gsl_tree.specs.declared.folded.Standing.TheVariants.{Never, Open, Settled};
ghost use Rattle.gsl_fold.specs.Laws.{DrawsAlways, GivesAlways};

/// The value that is known of an expression is what it gives whatever the choices are, and no choice is drawn. An expression of the
/// right forms and of known variables alone that gives one value so is known.
pub fn known_whatever_the_choices()
    ensures known { (consts : Consts) (e : Expr) (v : Value) → constant_of consts e ≡ Known v → GivesAlways (gives consts e) (Some v) }
    ensures only { (consts : Consts) (e : Expr) (v : Value) → standing consts e ≡ Settled → GivesAlways (gives consts e) (Some v) → constant_of consts e ≡ Known v }
{}

/// An expression of the right forms and of known variables alone is left open where two lists of choices give different values, or where
/// a choice is drawn from one of them. What is left open has a variable that is, or draws whatever the choices are.
pub fn left_open_where_choices_count()
    ensures differs { (consts : Consts) (e : Expr) (some others : List ℕ) → standing consts e ≡ Settled → (gives consts e some).0 ≢ (gives consts e others).0 → constant_of consts e ≡ Free }
    ensures draws { (consts : Consts) (e : Expr) (choices : List ℕ) → standing consts e ≡ Settled → (gives consts e choices).1 ≢ choices → constant_of consts e ≡ Free }
    ensures only { (consts : Consts) (e : Expr) → constant_of consts e ≡ Free → (standing consts e ≡ Open) ⊎ ((standing consts e ≡ Settled) × DrawsAlways (gives consts e)) }
{}

/// What is not constant has another form or a variable that is not constant, or it strays whatever the choices are.
pub fn not_constant_by_form_or_index()
    ensures { (consts : Consts) (e : Expr) → constant_of consts e ≡ NotConstant → (standing consts e ≡ Never) ⊎ ((standing consts e ≡ Settled) × GivesAlways (gives consts e) None) }
{}
