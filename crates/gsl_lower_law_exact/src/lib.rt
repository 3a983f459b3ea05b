//! Does the module that a program is lowered to do what the shader does?
#![tactic(auto)]

mod laws;

pub use laws::{
    built_in_variables_are_known, initialisers_are_typed, programs_are_asked, programs_begin_alike,
    programs_do_as_shaders, programs_end_exactly, programs_fit_alike,
    programs_without_blocks_are_asked, programs_without_blocks_end_exactly,
    what_does_so_ends_exactly, what_does_so_runs, what_ends_alike_does_so,
};
