//! Does a store into a block leave the state of the shader?
#![tactic(auto)]

mod laws;

pub use laws::{blocks_are_renewed, components_are_stored, words_are_stored};
