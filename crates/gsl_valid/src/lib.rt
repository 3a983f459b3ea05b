//! Which SPIR-V modules are valid: the rules V1 to V18, each a function that gives the place of the
//! first instruction that breaks it.
//!
//! `specs/Valid.antt` has the table of the rules, the least one that a module breaks, and `Valid`. Each
//! rule has a file of its own, all of them over the search of `specs/Search.antt` and the kinds of
//! instructions of `specs/Kinds.antt`, for the whole table. The calls do nothing: their contracts are
//! laws.
#![tactic(auto)]

mod laws;

pub use laws::{broken_is_the_first_rule, valid_keeps_each_rule};
