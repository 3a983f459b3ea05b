//! Is each built-in variable that is used asked for?
#![tactic(auto)]

mod laws;

pub use laws::built_in_variables_are_asked_for;
