//! What a shader begins with on an input, and what it leaves.
#![tactic(auto)]

mod beginning;
mod ending;

pub use beginning::begins;
pub use ending::output_of;
