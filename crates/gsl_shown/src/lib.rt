//! Laws: which words show the states of a run.
#![tactic(auto)]

mod laws;

pub use laws::{
    blocks_are_shown, branches_are_shown, held_words_are_counted, merges_are_passed,
    values_are_shown,
};
