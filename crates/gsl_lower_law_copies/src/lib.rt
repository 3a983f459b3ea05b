//! Do the instructions that copy structs and arrays out of blocks and into them do so?
#![tactic(auto)]

mod laws;

pub use laws::{fillings_are_told, wholes_are_read, wholes_are_stored, wholes_out_of_bounds_stray};
