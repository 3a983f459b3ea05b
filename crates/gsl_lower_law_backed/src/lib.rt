//! Has each block of a program a buffer of its own, in the bytes that are given?
#![tactic(auto)]

mod laws;

pub use laws::{blocks_are_laid, blocks_have_their_buffers, buffers_are_known};
