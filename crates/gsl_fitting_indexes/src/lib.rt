//! Do indexes lead, as they are lowered, where they may be read and stored?
//!
//! Read `specs/Indexes.antt`. The laws are the contracts of calls that do nothing.
#![tactic(auto)]

mod laws;

pub use laws::{indexes_reach, tests_fit};
