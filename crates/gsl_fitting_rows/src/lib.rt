//! Do rows of operands fit, as they are lowered, where each operand does?
//!
//! Read `specs/Rows.antt`. The laws are the contracts of calls that do nothing.
#![tactic(auto)]

mod laws;

pub use laws::{calls_of_builtins_evaluate, constructors_evaluate, sequences_evaluate};
