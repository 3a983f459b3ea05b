//! Do expressions give what stands where they lead, and does what they lead to wait in holders, is it there again, and are indexes on the way there tested?
#![tactic(auto)]

mod laws;

pub use laws::{places_are_fetched, places_are_tested, places_give, places_wait};
