//! Which typed statements do statements stand for, one within the other, or which is their first fault (GLSL 4.50, chapter 6)?
//!
//! The definitions are those of `gsl_check_stmt`: its `specs/Statements.antt` says what each statement stands for from what its parts stand for.
//! `walking.rt` goes over the parts from left to right; what stands before and behind them is in `headers.rt`, `switched.rt`, `singles.rt`
//! and `gsl_check_stmt`.
#![tactic(auto)]

mod headers;
mod singles;
mod switched;
mod walking;

pub use walking::{statement, statements};
