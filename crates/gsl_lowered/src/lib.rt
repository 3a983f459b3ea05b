//! The valid module of a program.
//!
//! `gsl_lower_flow` says which module a program is lowered to. That it is valid is not proved of every program yet: so it is asked here of each
//! module, by the rules V1 to V18, and only what keeps them is handed on. `specs/Sound.antt` says what is answered.
#![tactic(auto)]

mod lowering;
mod writable;

pub use lowering::lowered;
