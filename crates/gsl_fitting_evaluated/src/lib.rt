//! Do whole expressions fit, as they are lowered?
//!
//! Read `specs/Fitted.antt` of `gsl_fitting_known`. The law is the contract of a call that does nothing.
#![tactic(auto)]

mod laws;

pub use laws::expressions_fit;
