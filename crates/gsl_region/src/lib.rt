//! The variables of a run as one region of words.
#![tactic(auto)]

mod laws;
mod region;
mod words;

pub use laws::{chains_add_up, parts_are_read, parts_are_written, variables_begin, variables_end};
pub use region::Region;
