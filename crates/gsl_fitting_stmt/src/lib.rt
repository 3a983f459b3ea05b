//! Do statements fit, as they are lowered?
//!
//! Read `specs/Doing.antt`. The laws are the contracts of calls that do nothing.
#![tactic(auto)]

mod laws;

pub use laws::{ifs_run, rows_run, statements_run};
