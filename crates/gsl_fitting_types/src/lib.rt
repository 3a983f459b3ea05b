//! What is known of a module while it is made section by section, and how do types and constants of scalars and vectors fit in it?
//!
//! Read `specs/Making.antt`. The laws are the contracts of calls that do nothing.
#![tactic(auto)]

mod laws;

pub use laws::{constants_fit, instructions_give, sections_tell, steps_follow, types_fit};
