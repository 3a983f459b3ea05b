//! Conditions of `#if` and `#elif` (GLSL 4.50, 3.3): does a condition hold, or which is its first fault?
#![tactic(auto)]

mod condition;
mod defined;
mod laws;
mod operator;
mod reader;
mod value;

pub use condition::{MAX_NESTING, holds};
pub use laws::conditions_are_read;
pub use operator::{Binary, Unary};
pub use reader::Entry;
pub use value::literal;
