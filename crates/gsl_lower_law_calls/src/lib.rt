//! Do the instructions of built-in functions compute what those give?
#![tactic(auto)]

mod laws;

pub use laws::called_computes;
