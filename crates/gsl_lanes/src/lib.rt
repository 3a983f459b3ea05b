//! Operators and built-in functions on the components of values, in slots.
#![tactic(auto)]

mod functions;
mod lanes;
mod laws;

pub use functions::{Operand, builtin_lanes};
pub use lanes::{binary_lanes, unary_lanes};
pub use laws::operands_of_one_size;
