//! Statements as instructions of a module (GLSL 4.50, chapter 6).
//!
//! `specs/Lowering.antt` says what each kind of statement is lowered to, over `Parts`, which has each kind over its parts; `Coming` has the
//! words of which each is one call. `Body::row` and `statement` carry the contract.
#![tactic(auto)]

mod body;
mod ends;
mod exits;
mod labels;
mod loops;
mod statements;
mod switches;

pub use body::Body;
pub use exits::Exits;
