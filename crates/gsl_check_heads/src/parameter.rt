//! Parameters and heads as they are declared.

use gsl_base::{List, Text};
use gsl_types::{Direction, Ty};

/// What the qualifiers of a parameter say: whether it is `const`, and its direction, if that is said.
#[derive(Clone, Copy, Debug, PartialEq, Eq)]
pub struct Said {
    pub fixed: bool,
    pub direction: Option<Direction>,
}

/// A parameter: its name, if it has one, whether it is `const`, its direction and its type.
#[derive(Drop)]
pub struct Parameter {
    pub name: Option<Text>,
    pub fixed: bool,
    pub direction: Direction,
    pub ty: Ty,
}

/// The parameters of a head, in their order.
pub type Parameters = List<Parameter>;

/// The head of a function: the number of the function, its result and its parameters.
#[derive(Drop)]
pub struct Head {
    pub number: u32,
    pub result: Ty,
    pub params: Parameters,
}
