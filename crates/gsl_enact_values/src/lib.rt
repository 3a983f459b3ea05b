//! What constants stand for and what operations give on values, computed as `gsl_machine` says.
#![tactic(auto)]

mod composites;
mod constants;
mod draws;
mod operators;
mod paths;
mod search;
mod words;

pub use composites::{constructed, shuffled};
pub use constants::{constant, length_by, zeros};
pub use draws::{binary, extend, extracted, inserted, select, unary};
pub use operators::{Operator, arithmetic, comparison, function_of, logical, shift};
pub use paths::{follow, part_at, put};
pub use search::latest;
pub use words::{Words, components, of_components, parts_of};
