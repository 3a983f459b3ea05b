//! How many words do the functions take that run at once?
#![tactic(auto)]

mod chains;
mod globals;
mod laws;
mod walking;

pub use chains::{Room, room_for};
pub use globals::global_words;
pub use laws::{calls_leave_room, chains_are_short, chains_take_no_more};
