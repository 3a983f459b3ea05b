//! Do copies and equality of whole values fit, leaf by leaf?
//!
//! Read `specs/Wholes.antt`. The laws are the contracts of calls that do nothing.
#![tactic(auto)]

mod laws;

pub use laws::{copies_fit, equality_fits};
