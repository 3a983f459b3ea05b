//! Are the types that the variables of blocks reach laid as they may be?
//!
//! `layouts` answers what `gsl_valid` says of V8 (`specs/LayoutRules.antt` there), in one pass over the module's instructions.
#![tactic(auto)]

mod layout;
mod marks;
mod members;
mod seeds;
mod sizes;

pub use layout::layouts;
