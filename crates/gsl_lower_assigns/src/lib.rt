//! Do assignments, with operators and without, and steps as they are lowered do what they mean?
#![tactic(auto)]

mod laws;

pub use laws::{places_are_assigned, places_are_stepped, places_are_updated};
