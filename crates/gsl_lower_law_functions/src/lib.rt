//! Does a function of a module do what a function of the program does, and do calls of it as they are lowered?
#![tactic(auto)]

mod laws;

pub use laws::{bodies_end, calls_do_at_each_depth, calls_give, functions_do};
