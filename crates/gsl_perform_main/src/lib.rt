//! What `main` and calls of the functions of a program do, by how deep they nest.
#![tactic(auto)]

mod calls;
mod finding;
mod zeros;

pub use calls::{call, run};
