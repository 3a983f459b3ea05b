//! Are the blocks of a function structured, and how many of their constructs stand within each other?
//!
//! `specs/Blocks.antt` says which blocks a function has, and `specs/Order.antt` which blocks are in order.
//! `specs/Reading.antt` reads them over a stack of what is due, which `nesting` carries; the law
//! `blocks_are_read` says that both are the same.
#![tactic(auto)]

mod around;
mod block;
mod cursor;
mod laws;
mod order;
mod runs;
mod stack;
mod targets;

pub use around::{Around, Due};
pub use block::{Block, End, Merge, Role, read_role};
pub use cursor::Blocks;
pub use laws::blocks_are_read;
pub use order::nesting;
