//! Does a module that is valid say what the sections hold that it is made of?
#![tactic(auto)]

mod laws;

pub use laws::{finished_modules_are_written, functions_last, what_is_written_is_said};
