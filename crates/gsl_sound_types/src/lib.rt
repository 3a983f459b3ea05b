//! Laws: what variables and ids hold while a valid module runs, by the types that the module gives them.
#![tactic(auto)]

mod laws;

pub use laws::{reached_states_are_typed, steps_keep_states_typed};
