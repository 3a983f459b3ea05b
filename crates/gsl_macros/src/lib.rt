//! Replacement of macros (GLSL 4.50, 3.3): which tokens does a list of tokens give, with a table of macros?
#![tactic(auto)]

mod chunk;
mod expand;
mod hides;
mod moves;
mod spelled;
mod stream;
mod table;
mod unread;

pub use expand::fault;
pub use hides::Hides;
pub use moves::{MAX_DEPTH, all, next, next_plain};
pub use spelled::{Mark, Spelled, mark_of};
pub use stream::{Hid, Stream};
pub use table::{Body, Macro, Macros, Shift, Table};
pub use unread::Unread;
