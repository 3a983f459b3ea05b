//! Laws: which words show the states behind calls and returns.
#![tactic(auto)]

mod laws;

pub use laws::{calls_are_shown, returns_are_shown, runs_begin, values_are_returned};
