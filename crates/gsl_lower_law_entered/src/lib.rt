//! Where does a call of a function lead, and how does the function's body begin?
#![tactic(auto)]

mod laws;

pub use laws::{calls_lead_into_functions, results_of_calls_do_not_last};
