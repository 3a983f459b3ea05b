//! Is what is stored in the bytes of a block what is seen there then?
#![tactic(auto)]

mod laws;

pub use laws::stores_are_seen;
