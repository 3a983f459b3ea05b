//! Do whole expressions, as they are lowered, do what they do?
#![tactic(auto)]

mod laws;

pub use laws::{
    expressions_evaluate, expressions_that_read_wholes_evaluate, wholes_in_blocks_give,
};
