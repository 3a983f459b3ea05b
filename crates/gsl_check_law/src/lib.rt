//! Is what the checker answers well typed?
//!
//! Read, in `specs/`: `Scenes`, which says what holds of that in which an expression is checked, `Parts`, `Labels` and `Small`; what is asked of
//! syntax trees stands in `gsl_formed`. The laws are the contracts of calls that do nothing.
#![tactic(auto)]

mod laws;

pub use laws::{
    constants_are_words, expressions_are_well_typed, initialisers_are_well_typed,
    statements_are_well_typed, units_are_well_typed,
};
