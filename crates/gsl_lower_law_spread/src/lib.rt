//! Is what is stored leaf by leaf where a trail in a block leads stored there?
#![tactic(auto)]

mod laws;

pub use laws::composites_of_blocks_are_written;
