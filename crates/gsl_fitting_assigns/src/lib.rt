//! Do assignments, with operators and without, and steps fit, as they are lowered, where their sides do?
//!
//! The definitions are those of `gsl_fitting_reaching`, `gsl_fitting_reads` and `gsl_fitting_indexes`. The laws are the contracts of calls that do nothing.
#![tactic(auto)]

mod laws;

pub use laws::{assignments_evaluate, steps_evaluate, updates_evaluate};
