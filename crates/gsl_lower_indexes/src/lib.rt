//! Do indexes that are computed lead where they mean to?
#![tactic(auto)]

mod laws;

pub use laws::{indexes_lead, indexes_that_call_lead};
