//! What stands outside functions in a module, as the compiler puts it: which types, which variables?
#![tactic(auto)]

mod laws;

pub use laws::{variables_stand_outside, what_is_known_is_told};
