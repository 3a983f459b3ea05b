//! Operations on values that ids stand for, as instructions of a module: operators, conversions, constructors, swizzles and built-in
//! functions on scalars and vectors (GLSL 4.50, 5.4 to 5.9 and 8).
//!
//! Each call puts instructions behind those that a builder of `gsl_spv` holds, and gives the id of what they compute. Which these are stands in
//! `specs/`: `Building` says what a step is and how calls answer, then come `Types`, `Operators`, `Constructors` and `Builtins`.
#![tactic(auto)]

mod builtins;
mod constructors;
mod giving;
mod operand;
mod operators;
mod types;

pub use builtins::called;
pub use constructors::{built, picked, replaced};
pub use giving::give;
pub use operand::{Operand, Shape};
pub use operators::{binary, converted, logical, selected, stepped, unary};
pub use types::{filled_constant, scalar_constant, scalar_type, type_of, vector_constant};
