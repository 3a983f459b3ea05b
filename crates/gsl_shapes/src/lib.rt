//! Types whose structs are written out: the value of a type whose leaves are all zero, and the value that words of a block tell.
#![tactic(auto)]

mod shape;
mod shapes;
mod told;
mod zero;

pub use shape::Shape;
pub use shapes::Shapes;
