//! What a machine does where instructions give values.
#![tactic(auto)]

mod composites;
mod functions;
mod gathering;
mod lanes;
mod operators;
mod parts;
mod shuffling;
mod single;

pub use composites::{extract, insert};
pub use functions::{bit_field_extract, bit_field_insert, extended, select};
pub use gathering::construct;
pub use lanes::put_same;
pub use operators::{arithmetic, comparison, logical, shift};
pub use parts::{ahead_of, part_of, words_of};
pub use shuffling::shuffle;
pub use single::unary;
