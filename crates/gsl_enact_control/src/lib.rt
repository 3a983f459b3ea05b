//! What do branches, calls and returns do, as `gsl_machine` says?
//!
//! Read the rows of these instructions in `act`, in `specs/Steps.antt` of `gsl_machine`: each public call has its row as its contract. What a step comes
//! to is seen by `outcome_seen` of `gsl_enact_steps`.
#![tactic(auto)]

mod branches;
mod calls;
mod returns;

pub use branches::{branch, branch_if, label, switch};
pub use calls::call;
pub use returns::{end, leave, leave_with};
