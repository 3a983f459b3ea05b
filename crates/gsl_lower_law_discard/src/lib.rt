//! Does `discard` as it is lowered do what it means?
#![tactic(auto)]

mod laws;

pub use laws::invocations_are_discarded;
