//! What a module owes its program: definitions, and the law that a module that does what its shader does ends exactly when it does.
//!
//! Read, in `specs/`: `Types`, `Places`, `Sizes`, `Runs`, `Carries`.
#![tactic(auto)]

mod laws;

pub use laws::what_runs_ends_alike;
