//! Expressions as instructions of a module (GLSL 4.50, chapter 5 and 6.1).
//!
//! `specs/Lowering.antt` says what each kind of expression is lowered to, over `Parts`, which has each kind over its parts; `Rows` has rows of
//! operands by what is known of them, `Coming` the words of which each is one call. `Lowerer::value` and `reach` carry the contract.
#![tactic(auto)]

mod access;
mod calls;
mod found;
mod lowerer;
mod names;
mod rows;
mod updates;

pub use access::shape_or;
pub use calls::{result_type, zeros};
pub use found::Found;
pub use lowerer::Lowerer;
pub use names::stage_number;
pub use rows::{count_splits, left_behind};
