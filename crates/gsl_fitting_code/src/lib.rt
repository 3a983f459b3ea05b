//! Which rules of validity does the code of functions keep that fits?
//!
//! Read `specs/Kept.antt`: a module with functions that fit. The laws are the contracts of calls that do nothing.
#![tactic(auto)]

mod laws;

pub use laws::{
    functions_are_ordered, functions_are_structured, functions_are_typed,
    functions_call_as_they_may, functions_have_their_shape, functions_keep_their_section,
    functions_keep_what_stands_outside, functions_use_what_is_defined, functions_use_what_is_near,
};
