//! Do bodies do what they mean where what is asked is so of all that stands in them, lowered or not?
//!
//! The laws are the contracts of calls that do nothing.
#![tactic(auto)]

mod laws;

pub use laws::{bodies_do, expressions_evaluate, statements_do, typed_bodies_do};
