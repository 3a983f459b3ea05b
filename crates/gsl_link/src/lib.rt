//! Which program typed units make together, or which is their first fault of linking (GLSL 4.50, 3.3, 4.1.8, 4.3 and 4.4).
//!
//! Read, in `specs/`: `Rows`, `Units`, `Joined`, behind those of `gsl_link_units`, `gsl_link_whole` and `gsl_link_calls`.
#![tactic(auto)]

mod linking;
mod program_rows;
mod side_rows;
mod slots;
mod variables;

pub use linking::link;
pub use program_rows::{
    large_function, no_main, recursion, second_definition, size_disagreement, too_deep, too_heavy,
};
pub use side_rows::{disagreement, undefined_call, used_twice};
pub use variables::large_globals;
