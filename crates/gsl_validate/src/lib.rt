//! Is a module valid, and which rule does it break else?
//!
//! `validate` answers what `gsl_valid` says (`specs/Valid.antt` there): a module that keeps the rules V1 to V18 is handed back as a
//! `Valid`, and of any other the number of the least rule that it breaks is told, with the place of the first instruction that breaks it.
#![tactic(auto)]

mod judging;
mod valid;

pub use judging::{Invalid, validate};
pub use valid::Valid;
