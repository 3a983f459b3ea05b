//! Is what is stored where a trail in a block leads stored there?
#![tactic(auto)]

mod laws;

pub use laws::shapes_of_blocks_are_written;
