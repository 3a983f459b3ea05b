//! Do names and parts of what they name lead, as they are lowered, where they may be read and stored?
//!
//! Read `specs/Reached.antt`. The laws are the contracts of calls that do nothing.
#![tactic(auto)]

mod laws;

pub use laws::{members_reach, names_reach, places_serve, swizzles_reach, values_reach};
