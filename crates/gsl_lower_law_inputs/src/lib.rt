//! With which values do the variables outside functions begin?
//!
//! Read `specs/Beginning.antt`. The laws are the contracts of calls that do nothing.
#![tactic(auto)]

mod laws;

pub use laws::{
    built_in_values_are_typed, built_in_variables_begin, global_variables_begin,
    inputs_and_outputs_begin, variables_have_their_types,
};
