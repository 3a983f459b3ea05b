//! The words of a module's constants, in one list.
#![tactic(auto)]

mod constants;
mod putting;

pub use constants::Constants;
