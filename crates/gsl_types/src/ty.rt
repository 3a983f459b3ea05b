//! Types (GLSL 4.50, 4.1).

use gsl_base::{Boxed, List, Text};

/// A scalar type.
#[derive(Clone, Copy, Debug, PartialEq, Eq)]
pub enum Scalar {
    Bool,
    Int,
    Uint,
}

/// A type.
#[derive(Debug, Drop)]
pub enum Ty {
    Void,
    One(Scalar),
    /// A vector with its count of components, two to four.
    Vector(Scalar, u32),
    /// An array with its count of elements, at least one.
    Array(Boxed<Ty>, u32),
    /// An array whose count of elements its buffer decides.
    Runtime(Boxed<Ty>),
    /// A struct, by its number in a list of structs.
    Struct(u32),
}

/// Types in their order.
pub type Types = List<Ty>;

/// A member of a struct or a block.
#[derive(Debug, Drop)]
pub struct Member {
    pub name: Text,
    pub ty: Ty,
}

/// The members of a struct or a block in their order.
pub type Members = List<Member>;

/// A struct type. Its members name structs that stand before it in their list alone.
#[derive(Debug, Drop)]
pub struct StructType {
    pub name: Text,
    pub members: Members,
    /// The leaves of its members together, at most 2^40.
    pub leaves: u64,
}

/// Struct types, each named by its place in the list.
pub type Structs = List<StructType>;

/// Which way an argument goes (GLSL 4.50, 6.1.1).
#[derive(Clone, Copy, Debug, PartialEq, Eq)]
pub enum Direction {
    In,
    Out,
    InOut,
}
