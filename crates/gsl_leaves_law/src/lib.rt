//! Laws: how many words the values of types have, and where their parts stand among them.
#![tactic(auto)]

mod laws;

pub use laws::{parts_stand_by_types, values_have_their_words, zeros_are_zero_words};
