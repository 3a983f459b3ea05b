//! A shader, performed: what it comes to on an input, by the definition of `gsl_meaning`.
#![tactic(auto)]

mod outcome;
mod running;

pub use outcome::Performed;
pub use running::perform;
