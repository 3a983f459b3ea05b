//! Do the instructions of constructors compute what constructors give?
#![tactic(auto)]

mod laws;

pub use laws::built_computes;
