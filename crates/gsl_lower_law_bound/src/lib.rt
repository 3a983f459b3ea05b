//! Where do the variables of blocks stand in the module of a program, and where does what is in them lie?
//!
//! Read `specs/Bound.antt`. The laws are the contracts of calls that do nothing.
#![tactic(auto)]

mod laws;

pub use laws::{blocks_are_bound, members_are_known};
