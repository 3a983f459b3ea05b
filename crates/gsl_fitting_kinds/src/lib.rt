//! Do lengths, built-in variables and equality of arrays and structs fit, as they are lowered?
//!
//! Read `specs/Lengths.antt`. The laws are the contracts of calls that do nothing.
#![tactic(auto)]

mod laws;

pub use laws::{equality_evaluates, lengths_evaluate, stages_evaluate};
