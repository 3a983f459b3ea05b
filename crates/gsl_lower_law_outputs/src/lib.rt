//! Which outputs does the module of a program have?
//!
//! Read `specs/Outputs.antt`. The laws are the contracts of calls that do nothing.
#![tactic(auto)]

mod laws;

pub use laws::{functions_declare_no_outputs, outputs_stand};
