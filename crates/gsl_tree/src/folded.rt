//! What is known of the value of an expression before it runs.

use gsl_base::List;
use gsl_values::Value;

/// Whether an expression is constant.
#[derive(Debug, Drop)]
pub enum Folded {
    /// It is a constant expression of this value.
    Known(Value),
    /// It is no constant expression.
    NotConstant,
    /// Only an operation that the language leaves open stands against it.
    Free,
}

/// What is known of several expressions.
pub type Foldeds = List<Folded>;

/// Whether an expression may be constant, by its forms and its variables alone.
#[derive(Clone, Copy, Debug, PartialEq, Eq)]
pub enum Standing {
    /// It has the forms of constant expressions alone, and each variable in it is known.
    Settled,
    /// It has these forms alone, and the initialiser of a variable in it is left open.
    Open,
    /// It has another form, or a variable that is not constant.
    Never,
}

/// What is known of the variables, by their numbers: of each `const` variable what its initialiser is, and of every
/// other that it is not constant.
#[derive(Debug, Drop)]
pub struct Consts {
    pub locals: Foldeds,
    pub globals: Foldeds,
}
