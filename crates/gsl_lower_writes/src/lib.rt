//! Does what is stored where expressions lead stand there?
#![tactic(auto)]

mod laws;

pub use laws::places_are_stored;
