//! What lowering asks of a function and of the program before it lowers a body: holders for values that wait, types that are built, and
//! built-in variables.
//!
//! `specs/Asking.antt` has the words for what is asked for in its order, `Needs` says it of every kind of expression and `Bodies` of
//! statements, and of which of them leave. `Asker::row` carries the contract.
#![tactic(auto)]

mod asker;
mod bodies;
mod lead;
mod leads;
mod need;

pub use asker::Asker;
pub use lead::{Found, Lead};
pub use need::{Need, Needs};
