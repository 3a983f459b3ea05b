//! The variables of a module as a run begins, and what comes out at its end, as `gsl_machine` says.
#![tactic(auto)]

mod beginning;
mod built_ins;
mod ending;
mod outs;

pub use beginning::{variable_begins, variables_begin};
pub use ending::output_of;
