//! Where the tokens of a unit nest too deeply.
//!
//! `specs/Nesting.antt` of `gsl_syntax` counts what is open at each token; a `Nesting` passes them one by one, and
//! keeps the counters of the brackets that are open and their sum.
#![tactic(auto)]

mod nesting;
mod stack;

pub use nesting::{Depth, Nesting, first_deep, is_continuation};
