//! The state of a module that runs, and what its ids stand for, as `gsl_machine` says.
#![tactic(auto)]

mod chains;
mod code;
mod globals;
mod held;
mod rows;
mod state;
mod variables;

pub use code::Code;
pub use globals::Globals;
pub use held::{copy_held, copy_pointer, pointer_of, value_of};
pub use rows::{begin_block, give, push_row};
pub use state::{Given, Held, State, Waiting};
pub use variables::{point_to_values, variables_outside};
