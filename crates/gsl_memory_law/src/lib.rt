//! Laws: where the variables of a run stand among its words, by their types.
#![tactic(auto)]

mod laws;

pub use laws::{
    chains_add_up, functions_begin_and_end, parts_are_loaded, parts_are_stored,
    variables_stand_by_types,
};
