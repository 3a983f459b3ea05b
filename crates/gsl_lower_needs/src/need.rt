//! What is asked for.

use gsl_base::List;
use gsl_tree::StageVar;
use gsl_types::Ty;

/// What lowering asks for.
#[derive(Drop)]
pub enum Need {
    /// A variable of the function, for a value of a type that waits.
    Holder(Ty),
    /// A type whose values are built from parts.
    Built(Ty),
    /// A built-in variable.
    Stage(StageVar),
}

/// What is asked for, in the order of lowering.
pub type Needs = List<Need>;
