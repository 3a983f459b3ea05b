//! Do picks by words that are out of bounds stray, and does one pointer serve what is read and then stored?
#![tactic(auto)]

mod laws;

pub use laws::{
    blocks_stray, pointers_out_of_bounds_stray, pointers_serve, reads_out_of_bounds_stray,
    stores_out_of_bounds_stray, variables_lead,
};
