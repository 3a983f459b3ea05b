//! Do loops fit, as they are lowered?
//!
//! Read `specs/Turning.antt`. The law is the contract of a call that does nothing.
#![tactic(auto)]

mod laws;

pub use laws::loops_run;
