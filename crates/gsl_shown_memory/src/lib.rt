//! Laws: which words show the states behind loads and stores.
#![tactic(auto)]

mod laws;

pub use laws::{parts_are_loaded, stores_are_shown, writes_are_shown};
