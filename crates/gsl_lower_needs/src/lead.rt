//! What an expression leads to, by the types of the ids in it.

use gsl_types::{Scalar, Types};

/// What an expression leads to: whether that is in a block; the types of a value in no variable and of the indexes on the way there, which wait
/// with it; and whether components of a vector are picked, with the type of the index that picks them, if it is computed.
#[derive(Drop)]
pub struct Lead {
    pub in_block: bool,
    pub waiting: Types,
    pub picked: bool,
    pub by: Option<Scalar>,
}

/// What was found of an expression.
#[derive(Drop)]
pub enum Found {
    /// It leads to a variable or a part of one, or to a part of a value.
    Place(Lead),
    /// It is a value.
    Value,
}
