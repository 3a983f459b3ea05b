//! Where do ids and variables stand in the frames of a module's functions, and how large are these?
#![tactic(auto)]

mod frames;
mod taken;

pub use frames::Frames;
pub use taken::Taken;
