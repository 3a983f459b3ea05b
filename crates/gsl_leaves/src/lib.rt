//! How many words the values of a module's types have, and where their parts stand.
#![tactic(auto)]

mod leaves;
mod telling;

pub use leaves::Leaves;
pub use telling::MOST;
