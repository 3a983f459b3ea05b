//! What the text formats share: lines, and numbers in decimal and hexadecimal digits.
//!
//! `specs/Lines.antt` says which lines a text has, and `first_line` gives them one by one. `specs/Numbers.antt`
//! says which number digits write; `natural` and `unsigned` read it.
#![tactic(auto)]

mod lines;
mod numbers;

pub use lines::first_line;
pub use numbers::{natural, unsigned};
