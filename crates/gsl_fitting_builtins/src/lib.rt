//! Do the steps that compute built-in functions, constructors and swizzles fit?
//!
//! Read `specs/Arguments.antt`. The laws are the contracts of calls that do nothing.
#![tactic(auto)]

mod laws;

pub use laws::{builtins_fit, constructors_fit, swizzles_fit};
