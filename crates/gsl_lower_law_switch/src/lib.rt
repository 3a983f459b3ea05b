//! Does `switch` as it is lowered do what it means?
#![tactic(auto)]

mod laws;

pub use laws::switches_choose;
