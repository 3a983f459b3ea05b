//! Do expressions fit, as they are lowered, where their operands do?
//!
//! Read `specs/Evaluating.antt`. The laws are the contracts of calls that do nothing.
#![tactic(auto)]

mod laws;

pub use laws::{choices_evaluate, operators_evaluate, truths_evaluate, values_evaluate};
