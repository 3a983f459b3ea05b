//! Law: there is room for the functions that are called.
#![tactic(auto)]

mod laws;

pub use laws::chains_have_room;
