//! Which function does a call mean, and what becomes of its arguments (GLSL 4.50, 6.1 and chapter 8)?
//!
//! Read `specs/Candidates.antt`, the parameters that each built-in function may have, and `specs/Calls.antt`, a definition for the
//! calls of functions of the unit and one for those of built-in functions.
#![tactic(auto)]

mod calling;
mod families;
mod results;

pub use calling::{built, call};
pub use families::{Family, candidates};
pub use results::built_shape;
