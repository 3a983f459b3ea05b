//! How do the functions of a linked program call each other?
#![tactic(auto)]

mod laws;

pub use laws::linked_programs_nest;
