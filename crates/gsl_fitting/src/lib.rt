//! What is it for the code of a function to fit? One judgement of a function's code.
//!
//! Read, in `specs/`: `Fits`, the judgement on the rest of a function's code; `Functions`, what a function is around it.
#![tactic(auto)]

mod laws;

pub use laws::what_fits_goes_on;
