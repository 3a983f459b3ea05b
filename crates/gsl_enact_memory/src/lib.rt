//! Where chains of indexes lead in the memory of a module, what is loaded and what is stored, as `gsl_machine` says.
//!
//! A value past which no machine could count is want of memory.
#![tactic(auto)]

mod bytes;
mod chains;
mod laws;
mod loads;
mod parts;
mod pointer;
mod stores;

pub use bytes::bytes_of;
pub use chains::into;
pub use laws::words_are_the_machines;
pub use loads::{counted, loaded};
pub use pointer::{Pointer, Reached};
pub use stores::{block_stored, variable_stored};
