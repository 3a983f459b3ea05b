//! What a machine does where a function is called.
#![tactic(auto)]

mod arguments;
mod calling;
mod numbers;
mod variables;

pub use calling::call;
