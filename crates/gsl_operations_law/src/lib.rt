//! Laws: what operations give, in the words of values.
#![tactic(auto)]

mod laws;

pub use laws::{lanes_are_words, operations_give_words, parts_are_words};
