//! Do expressions as they are lowered lead where they mean to?
#![tactic(auto)]

mod laws;

pub use laws::{blocks_lead, members_lead, names_lead, swizzles_lead, values_lead};
