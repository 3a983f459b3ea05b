//! Has the unit that the front end gives all that the checker's law asks of a syntax tree?
//!
//! Read, in `specs/`: `Live`, which says what holds of each token that the grammar is given, and `Sources`, which puts the definitions of the
//! front end together; what is asked of a tree stands in `gsl_formed`. The laws are the contracts of calls that do nothing.
#![tactic(auto)]

mod laws;

pub use laws::{sources_are_parsed, tokens_are_live, units_are_parsed};
