//! Is what is stored where an expression leads stored there, in a variable and in a block alike?
#![tactic(auto)]

mod laws;

pub use laws::{places_are_made_ready, places_are_written};
