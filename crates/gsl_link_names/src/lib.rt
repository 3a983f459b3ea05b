//! Which declarations of units are against one of an earlier unit (GLSL 4.50, 3.3, 4.3 and 4.4).
//!
//! Read, in `specs/`: `Earlier`, then `Rows` and `Against` for how they are found.
#![tactic(auto)]

mod adding;
mod asking;
mod laying;
mod lent;
mod rows;
mod units;

pub use units::against_earlier;
