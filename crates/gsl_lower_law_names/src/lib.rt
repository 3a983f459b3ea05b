//! Are variables read and assigned to as names mean them?
#![tactic(auto)]

mod laws;

pub use laws::{names_are_assigned, names_give};
