//! Whole values of structs and arrays, leaf by leaf, as instructions of a module: copies between blocks and values, and equality (GLSL 4.50,
//! 5.8 and 5.9).
//!
//! `specs/Leaves.antt` says which scalars and vectors a type is made of, `Copies` what is put for each. What stands between the leaves
//! of a block is not touched.
#![tactic(auto)]

mod copies;
mod leaf;
mod leaves;

pub use copies::{compared_whole, read_whole, store_whole};
pub use leaf::{Leaf, Leaves};
pub use leaves::leaves_of;
