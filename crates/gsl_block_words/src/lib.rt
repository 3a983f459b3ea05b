//! The words of a block in the bytes of its buffer: its value as they tell it, and the bytes with the words of a value put.
#![tactic(auto)]

mod buffers;
mod bytes;
mod laying;
mod putting;
mod reading;

pub use buffers::{begun, put_blocks};
pub use laying::lay_block;
pub use putting::put;
pub use reading::read;
