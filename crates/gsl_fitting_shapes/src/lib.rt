//! How do blocks with new labels fit?
//!
//! Read `specs/Fresh.antt`. The laws are the contracts of calls that do nothing.
#![tactic(auto)]

mod laws;

pub use laws::{labels_are_fresh, runs_end, selections_fit, switches_fit};
