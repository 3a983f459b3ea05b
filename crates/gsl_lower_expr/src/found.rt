//! What was found of an expression.

use gsl_lower_places::Reached;

/// What was found of an expression.
#[derive(Debug, Drop)]
pub enum Found {
    /// It leads to a variable or a part of one, or to a part of a value.
    Place(Reached),
    /// It is a value, by its id.
    Value(u32),
}
