//! Do the steps that compute operators and conversions of scalars and vectors fit?
//!
//! Read `specs/Operands.antt`. The laws are the contracts of calls that do nothing.
#![tactic(auto)]

mod laws;

pub use laws::{binary_fits, choices_fit, conversions_fit, unary_fits};
