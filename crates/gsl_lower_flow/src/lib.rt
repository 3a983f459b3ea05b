//! The module of a program: its functions with their parameters and variables, and all that stands outside them (SPIR-V 1.0, 2.4).
//!
//! `specs/Reaching.antt` says which functions are lowered, `Functions` what a function is lowered to, and `Programs` which module a program is
//! lowered to. `lower_for` carries the contract.
#![tactic(auto)]

mod declaring;
mod functions;
mod program;
mod reaching;

pub use program::{lower, lower_for};
