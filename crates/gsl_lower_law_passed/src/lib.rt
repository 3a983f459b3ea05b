//! Do calls of functions as they are lowered do what they mean, whatever ways their arguments are passed?
#![tactic(auto)]

mod laws;

pub use laws::calls_pass;
