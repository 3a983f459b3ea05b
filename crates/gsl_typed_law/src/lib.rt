//! Laws: operations on values of types give values of the types that well typed expressions of their kind have.
#![tactic(auto)]

mod laws;

pub use laws::{
    constructors_give_values, conversions_and_steps_keep_types, functions_give_values,
    operators_give_values, parts_are_values, zeros_are_values,
};
