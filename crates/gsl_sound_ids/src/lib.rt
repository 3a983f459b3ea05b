//! What may ids stand for while a valid module runs?
//!
//! Read `specs/Held`: values and pointers that are of the types of their ids. The laws are the contracts of calls that do nothing.
#![tactic(auto)]

mod laws;

pub use laws::{blocks_have_bytes, parts_of_blocks_are_found, what_lasts_agrees};
