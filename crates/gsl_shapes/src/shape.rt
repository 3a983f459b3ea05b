use gsl_base::{Boxed, List};
use gsl_types::Scalar;

/// A type whose structs are written out.
#[derive(Debug, Drop)]
pub enum Shape {
    Void,
    One(Scalar),
    Vector(Scalar, u32),
    Array(Boxed<Shape>, u32),
    Runtime(Boxed<Shape>),
    /// A struct, by the shapes of its members.
    Struct(List<Shape>),
}
