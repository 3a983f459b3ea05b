//! What do instructions that touch memory do, as `gsl_machine` says: loads, stores, chains of indexes, counts and variables?
//!
//! Read the rows of these instructions in `act`, in `specs/Steps.antt` of `gsl_machine`: each public call has its row as its contract. What a step comes
//! to is seen by `outcome_seen` of `gsl_enact_steps`.
#![tactic(auto)]

mod chains;
mod loads;
mod stores;

pub use chains::chain;
pub use loads::{count, load};
pub use stores::{declare, store};
