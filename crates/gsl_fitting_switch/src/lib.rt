//! Does `switch` fit, as it is lowered?
//!
//! Read `specs/Choosing.antt`. The law is the contract of a call that does nothing.
#![tactic(auto)]

mod laws;

pub use laws::switches_run;
