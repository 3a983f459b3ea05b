//! Is what is read leaf by leaf where a trail in a block leads the value there?
#![tactic(auto)]

mod laws;

pub use laws::{composites_of_blocks_are_read, trails_are_read};
