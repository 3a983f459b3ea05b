//! Where the tokens of a unit come from as it is parsed: one at a time, up to the first that nests too deeply.
//!
//! `specs/Coming.antt` says what still comes of a feed, and what the grammar is asked of: the tokens before the
//! first fault of the preprocessor, or the first that nests too deeply, and that fault, which goes before any of the
//! grammar's. A `Supply` gives these tokens, and at the end the fault.
#![tactic(auto)]

mod source;
mod supply;

pub use supply::Supply;
