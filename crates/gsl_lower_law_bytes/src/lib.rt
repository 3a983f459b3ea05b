//! Are the bytes of a block those that its value tells, behind what is stored there too?
#![tactic(auto)]

mod laws;

pub use laws::{buffers_are_told, parts_are_told, puts_are_told};
