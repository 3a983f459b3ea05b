//! What a shader works on while it runs: the values of its variables, the words of its blocks, and the choices that are left; and what is
//! read and stored through accesses.
#![tactic(auto)]

mod access;
mod drawing;
mod putting;
mod reading;
mod root;
mod store;
mod storing;
mod words;

pub use access::Access;
pub use drawing::{binary_drawn, builtin_drawn};
pub use reading::{block_parts, parts_at, read};
pub use root::Root;
pub use store::{Caller, Store};
pub use storing::stored;
