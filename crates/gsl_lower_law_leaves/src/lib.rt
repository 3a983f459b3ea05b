//! Do the instructions that compare structs and arrays leaf by leaf compute equality?
#![tactic(auto)]

mod laws;

pub use laws::{equality_computes, values_are_their_leaves};
