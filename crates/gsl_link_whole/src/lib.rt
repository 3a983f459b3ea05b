//! The program that typed units make together: their lists joined, each thing once, and all that names it by its new number (GLSL 4.50, 3.3).
//!
//! Read, in `specs/`: `Numbers`, `Renumbering`, `Whole`. There is code for the units by the joined structs, and for trees by new numbers.
#![tactic(auto)]

mod copies;
mod exprs;
mod parts;
mod side;
mod stmts;
mod table;

pub use copies::copied;
pub use exprs::renumbered_expr;
pub use parts::{renumbered_function, renumbered_global};
pub use side::{Side, Sides, join_units};
pub use stmts::renumbered_stmt;
pub use table::Numbering;
