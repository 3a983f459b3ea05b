//! Functions, their blocks and their variables, as `gsl_machine` says: what calls and branches lead to.
#![tactic(auto)]

mod beginning;
mod bodies;
mod calls;
mod labels;

pub use beginning::{begins_as, enter};
pub use calls::{back, wait};
pub use labels::{function_at, label_at};
