//! Trees in words: what the programs that run cases print of them.
//!
//! A line for each declaration, function and statement, with what is within it further to the right. Each word has its line behind
//! a colon, and an operator stands before its operands in brackets. `docs/CASES.md` has the form.
#![tactic(auto)]

mod declarations;
mod expressions;
mod spelling;
mod statements;
mod text;

pub use spelling::{key_word, punct};
pub use statements::unit;
pub use text::{Done, Outline};
