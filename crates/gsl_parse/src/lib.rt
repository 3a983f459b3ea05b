//! From the tokens of a unit to its tree (GLSL 4.50, chapter 9).
//!
//! `specs/Sentences.antt` of `gsl_syntax` says which tokens stand for which unit, and its
//! `specs/Nesting.antt` at which token they nest too deeply. `specs/Units.antt` reads units from a list
//! of tokens, with the files that it uses, `src/unit.rt` does the same, and `specs/Judged.antt` says
//! what `parse` answers.
#![tactic(auto)]

mod judging;
mod laws;
mod list;
mod opening;
mod qualifier;
mod statement;
mod unit;
mod variable;

pub use judging::{parse, parse_feed};
pub use laws::{one_first_bad, one_tree};
