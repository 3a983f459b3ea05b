//! Does an input fit a module, and what is the first that it misses?
//!
//! `fits` answers what `specs/Fits.antt` of `gsl_machine` says, in passes over the module from its end to its front, and takes no memory.
#![tactic(auto)]

mod blocks;
mod code;
mod demands;
mod ids;
mod missed;
mod needs;
mod places;
mod variables;
mod whole;

pub use demands::{bytes_at, words_at};
pub use ids::{local_size, model_of};
pub use missed::Missed;
pub use variables::{begins, lanes_size, variable_in};
pub use whole::fits;
