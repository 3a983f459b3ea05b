//! Do the instructions that read and store where an expression leads do so?
#![tactic(auto)]

mod laws;

pub use laws::{
    blocks_are_stored, blocks_hold_components, extracts_compute, indexes_out_of_bounds_stray,
    loads_compute, pointers_lead, stores_leave, values_are_read, variables_are_read,
    variables_are_stored, variables_hold_components,
};
