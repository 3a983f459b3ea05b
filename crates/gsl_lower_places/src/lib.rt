//! What expressions lead to, as instructions of a module: the parts of variables and of values, what is read there and what is stored
//! (GLSL 4.50, 5.5 and 5.7).
//!
//! `specs/Reached.antt` says what an expression leads to, in ids; `Reading` what is put to read a scalar or vector there, `Writing` to
//! store one, `Pointed` to do both. A truth value in a block is a number there. Steps and their answers are those of `gsl_lower_values`.
#![tactic(auto)]

mod pointers;
mod pointing;
mod reached;
mod reading;
mod writing;

pub use pointers::{index, pointer};
pub use pointing::{pointed, to_renew};
pub use reached::{Base, Part, Parts, Picked, Positions, Reached, is_block_class, stored_scalar};
pub use reading::{extracted, loaded, read};
pub use writing::{put_at, stored};
