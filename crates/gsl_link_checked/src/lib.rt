//! May what the checker answers be linked? It may, and what is linked is a program without a fault.
//!
//! Read, in `specs/`: `Answers`, which says which units the checker answers for trees. The laws are the contracts of calls that do nothing.
#![tactic(auto)]

mod laws;

pub use laws::{checked_units_are_linked, checked_units_may_be_linked, names_are_declared_once};
