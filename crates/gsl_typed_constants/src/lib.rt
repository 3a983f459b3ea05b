//! Are the values of constant expressions values of their types?
//!
//! Read `specs/Known.antt`. The laws are the contracts of calls that do nothing.
#![tactic(auto)]

mod laws;

pub use laws::{constants_have_their_types, initialisers_have_their_types};
