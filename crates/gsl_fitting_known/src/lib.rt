//! What is asked of a module for whole expressions to fit, and what is it for one to fit?
//!
//! Read `specs/Ids.antt`, `Lying.antt`, `Known.antt` and `Fitted.antt`. The laws are the contracts of calls that do nothing.
#![tactic(auto)]

mod laws;

pub use laws::leaves_lie;
