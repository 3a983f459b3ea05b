//! Are components of a vector in a block stored so that the others stay?
#![tactic(auto)]

mod laws;

pub use laws::{blocks_are_stored_in_part, pointers_put};
