//! What do the rules give where the code of a valid module stands?
//!
//! Read, in `specs/`: `Rules`, what each instruction keeps, and `Spots`, where the code of a function stands. The laws are the contracts of
//! calls that do nothing.
#![tactic(auto)]

mod laws;

pub use laws::{functions_have_bodies, instructions_keep_the_rules, modules_enter_a_function};
