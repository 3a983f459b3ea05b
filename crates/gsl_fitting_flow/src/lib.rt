//! Does what lowering puts fit, where blocks end and begin on the way?
//!
//! Read `specs/Flowing.antt`. The laws are the contracts of calls that do nothing.
#![tactic(auto)]

mod laws;

pub use laws::{choices_fit, parts_follow, right_operands_fit, steps_flow, values_wait};
