//! Which bytes do the blocks of a program have in its module as it starts, and which words does the shader see there?
//!
//! The laws are the contracts of calls that do nothing, by the definitions of the shader's meaning and of the machine.
#![tactic(auto)]

mod laws;

pub use laws::{blocks_are_seen, blocks_begin, buffers_stay};
