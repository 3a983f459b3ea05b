//! The scalars and vectors that a type is made of.

use gsl_base::List;
use gsl_lower_places::Parts;
use gsl_lower_values::Shape;

/// A scalar or vector within a value: the numbers of members and elements that lead to it, and its shape.
#[derive(Debug, Drop)]
pub struct Leaf {
    pub path: Parts,
    pub shape: Shape,
}

/// Leaves in their order.
pub type Leaves = List<Leaf>;
