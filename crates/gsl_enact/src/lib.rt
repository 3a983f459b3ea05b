//! What does a module do on an input, one instruction after the other, as `gsl_machine` says?
//!
//! Read `specs/Fits.antt` and `specs/Machine.antt` of `gsl_machine`, and `specs/Came.antt` here. The call that carries the contract is `enact`.
#![tactic(auto)]

mod acting;
mod enacting;
mod entry;
mod running;

pub use enacting::{Enacted, enact};
pub use running::run_module;
