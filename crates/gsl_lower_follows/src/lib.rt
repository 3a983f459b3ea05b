//! What is it for the code of a function to do what a part of a shader does?
#![tactic(auto)]

mod laws;

pub use laws::{
    branches_lead_to_labels, choices_lead_to_labels, computed_values_are_given, stretches_compose,
    values_are_fetched, values_wait_in_holders, ways_meet,
};
