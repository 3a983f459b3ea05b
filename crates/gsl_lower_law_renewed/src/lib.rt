//! Is a place in a block served by what is made ready to be read and stored there?
#![tactic(auto)]

mod laws;

pub use laws::places_in_blocks_are_made_ready;
