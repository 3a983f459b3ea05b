//! Values that ids stand for.

use gsl_types::Scalar;

/// A scalar type, and a count of components, one to four.
pub type Shape = (Scalar, u32);

/// A scalar or vector, by its shape and its id.
#[derive(Clone, Copy, Debug)]
pub struct Operand {
    pub shape: Shape,
    pub id: u32,
}

/// An argument of a constructor, and how many components are still wanted.
#[derive(Clone, Copy, Debug)]
pub(crate) struct Share {
    pub(crate) wanted: u32,
    pub(crate) of: Operand,
}
