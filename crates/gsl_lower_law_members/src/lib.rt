//! Where do members of blocks and parts of them lie, and how many bytes have blocks?
#![tactic(auto)]

mod laws;

pub use laws::{blocks_keep_their_size, parts_are_laid, runs_are_vectors, words_are_told};
