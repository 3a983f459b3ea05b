//! Do loops as they are lowered do what they mean?
#![tactic(auto)]

mod laws;

pub use laws::loops_turn;
