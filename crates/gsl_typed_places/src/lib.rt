//! Does what may be written, and what an index goes into, have a type with values?
#![tactic(auto)]

mod laws;

pub use laws::{indexed_have_values, parts_of_blocks_are_plain, places_have_values};
