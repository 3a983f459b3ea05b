//! The struct types of many units, each once, and the words by which these and heads of functions are found (GLSL 4.50, 4.1.8).
//!
//! The rule is `specs/Structs.antt` of `gsl_link_units`. Read `specs/Keys.antt`.
#![tactic(auto)]

mod key;
mod structs;

pub use key::Key;
pub use structs::{Joined, join_structs};
