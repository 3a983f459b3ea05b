//! Expressions and types, read from tokens (GLSL 4.50, 4.1, 5 and chapter 9).
//!
//! `specs/Expressions.antt` reads them from a list of tokens, with `specs/Reading.antt` for what takes a
//! token or two and `specs/Rules.antt` for what the next token tells. `src/grammar.rt` does the same. The rule is the
//! grammar, `specs/Phrases.antt` of `gsl_syntax`: what is read is derived by it (`read_is_derived`).
#![tactic(auto)]

mod grammar;
mod held;
mod laws;
mod nodes;
mod parts;
mod reading;
mod rule;
mod stop;

pub use grammar::expr;
pub use held::with;
pub use laws::read_is_derived;
pub use nodes::{head_type, may_be_open, void_alone};
pub use parts::{applied, basic_head, completed, dims, named_head};
pub use reading::Cursor;
pub use rule::{Base, Head, Mode, Start, next_start};
pub use stop::Stop;
