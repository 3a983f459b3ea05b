//! What do zeros stand for, and do variables without initialisers begin as zeros?
#![tactic(auto)]

mod laws;

pub use laws::{nulls_are_said, variables_begin_as_zeros, zeros_give};
