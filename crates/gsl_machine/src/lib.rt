//! What a module does (SPIR-V 1.0, 2.3, 2.4 and 3.32; Extended Instructions for GLSL, 2): definitions and a law.
//!
//! Read, in `specs/`: `State`, `Constants`, `Operations`, `Memory`, `Functions`, `Interfaces`, `Steps`, `Machine`; and `Fits`.
#![tactic(auto)]

mod laws;

pub use laws::what_is_over_stays_over;
