//! The types, blocks and global variables of a program, as instructions of a module (SPIR-V 1.0, 3.32.6 to 3.32.8).
//!
//! `specs/Known.antt` has the words for what puts a type once: steps of `gsl_lower_values` over the arrays and structs that are known.
//! `Values` says which types stand for those of values, `Laid` which ones lie in blocks, `Blocks` what a block's variable is, and `Globals`
//! what a global variable is, and `Interfaces` what inputs, outputs and built-in variables are.
#![tactic(auto)]

mod blocks;
mod declaring;
mod globals;
mod interfaces;
mod known;
mod laid;
mod laws;
mod values;

pub use blocks::{LaidTypes, blocks_put, class_of, classes_of};
pub use globals::globals_put;
pub use interfaces::{interfaces_put, stage_put};
pub use laws::{
    built_in_variables_have_their_types, elements_stand_where_they_lie,
    members_stand_where_they_lie, truth_values_lie_as_numbers, types_and_variables_only_add,
    types_are_found_under_their_ids, what_is_declared_is_found, what_is_put_is_found,
};
pub use values::{program_types, value_type};
