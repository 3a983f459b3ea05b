//! How does the code of a function open that the compiler puts?
#![tactic(auto)]

mod laws;

pub use laws::functions_open;
