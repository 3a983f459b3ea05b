//! Do calls of functions fit, as they are lowered, where their arguments do?
//!
//! Read `specs/Arguments.antt`. The laws are the contracts of calls that do nothing.
#![tactic(auto)]

mod laws;

pub use laws::calls_evaluate;
