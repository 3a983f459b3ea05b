//! What does the module of a program ask of an input?
//!
//! The laws are the contracts of calls that do nothing, over `AsksAlike` of `gsl_fits_law`.
#![tactic(auto)]

mod laws;

pub use laws::{lowered_modules_ask_alike, lowered_modules_fit_alike};
