//! Does main end as the shader does?
//!
//! Read `specs/Ending.antt`. The laws are the contracts of calls that do nothing.
#![tactic(auto)]

mod laws;

pub use laws::{main_ends, outputs_are_told};
