//! Is the module of sound sections valid?
#![tactic(auto)]

mod laws;

pub use laws::{sections_have_an_entry_point, sections_make_valid_modules};
