//! Which typed unit does a unit stand for, or which is its first fault (GLSL 4.50, chapters 3 to 7)?
//!
//! Read `specs/Functions.antt` (functions and their bodies; their heads are those of `gsl_check_heads`), and then `Units.antt`: each declaration
//! from the first to the last. Variables are those of `gsl_check_globals`, and blocks those of `gsl_check_blocks`. Each call answers its
//! definition, unless memory was wanting.
#![tactic(auto)]

mod declarations;
mod functions;
mod units;

pub use declarations::declaration;
pub use functions::function;
pub use units::{check, next};
