//! Laws: where variables stand among the words of all.
#![tactic(auto)]

mod laws;

pub use laws::variables_stand_in_order;
