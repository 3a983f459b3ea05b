//! Which tokens a source text has: its raw tokens in their order, and the live token that each becomes where
//! the preprocessor gives it out.
//!
//! `lex` carries the raw tokens, against the one cut of the text into longest pieces (`specs/Lines.antt`,
//! `Pieces.antt`, `Cut.antt`, `Raws.antt`, `Ordered.antt`), and `cook` a live token (`specs/Literals.antt`,
//! `Cooking.antt`). The words and the punctuators are tables of `specs/Spellings.antt` and `Refused.antt`.
//! `specs/Reading.antt` and `Searching.antt` are how the code reads and searches; proofs tie them to the rules.
#![tactic(auto)]

mod cooking;
mod laws;
mod lexing;
mod piece;
mod rows;
mod tables;
mod text;

pub use cooking::{MAX_WORD_BYTES, cook};
pub use laws::{one_answer, one_cut, rows_are_rules};
pub use lexing::lex;
pub use rows::{MARKS, THREE_BYTES, TWO_BYTES};
