//! What a machine does at indexes that may be out of bounds.
#![tactic(auto)]

mod along;
mod chaining;
mod picking;

pub use chaining::{chain, put_pointer};
pub use picking::pick;
