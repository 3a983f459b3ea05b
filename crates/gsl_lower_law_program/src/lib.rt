//! Does the module of a program end as its shader does, from its start?
#![tactic(auto)]

mod laws;

pub use laws::{calls_of_programs_do, lowered_functions_stand, programs_end_as_shaders};
