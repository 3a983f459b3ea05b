//! Places in the code of a module as numbers of its instructions.
#![tactic(auto)]

mod positions;

pub use positions::{first_label, function_at, instr_at, label_at, place_at};
