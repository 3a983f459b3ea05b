//! Is what units make together well typed, where the units are?
//!
//! Read, in `specs/`: `Placed`, which says where the structs of a unit stand among the joined ones, and `Renumbered`, which says what the new
//! numbers of a unit have to do with the old ones. The laws are the contracts of calls that do nothing.
#![tactic(auto)]

mod laws;

pub use laws::{
    bodies_are_renumbered, equal_structs_have_one_number, expressions_are_renumbered,
    linked_units_are_programs, structs_are_joined, units_may_be_linked,
};
