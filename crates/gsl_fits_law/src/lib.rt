//! Does a module refuse the inputs that its program refuses?
//!
//! Read `specs/Asking.antt`. The law is the contract of a call that does nothing.
#![tactic(auto)]

mod laws;

pub use laws::modules_that_ask_alike_fit_alike;
