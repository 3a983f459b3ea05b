//! What do names stand for, where scopes stand within each other (GLSL 4.50, 4.2.2)?
//!
//! Read `specs/Scopes.antt`: the scopes are lists, and a name stands for its last declaration in the innermost scope that has
//! one. `Names` is seen as those lists, and looks a name up in one search, however many scopes there are.
#![tactic(auto)]

mod entry;
mod names;
mod stack;

pub use entry::{Entries, Entry};
pub use names::Names;
