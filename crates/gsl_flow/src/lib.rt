//! What statements do (GLSL 4.50, chapter 6), performed.
#![tactic(auto)]

mod arms;
mod body;
mod left;
mod statements;

pub use body::{Body, spend};
pub use left::Left;
