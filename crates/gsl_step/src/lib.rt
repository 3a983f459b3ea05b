//! The machine over words in place: what it keeps, and what it does where code goes on.
#![tactic(auto)]

mod branches;
mod callers;
mod going;
mod laws;
mod machine;
mod standing;

pub use branches::{branch, branch_conditional, switch, word_at};
pub use callers::Callers;
pub use going::{merge, pass};
pub use laws::{operands_stand_in_slots, values_are_put};
pub use machine::Machine;
pub use standing::Standing;
