//! Are values read and stored where expressions lead, and does what they lead to wait, so that it fits?
//!
//! Read `specs/Waiting.antt` and `specs/Moving.antt`. The laws are the contracts of calls that do nothing.
#![tactic(auto)]

mod laws;

pub use laws::{places_give, places_take, places_wait};
