//! Do the calls of the builder keep the judgement of code that fits, and what sections have to be?
//!
//! Read `specs/Keeping.antt`. The laws are the contracts of calls that do nothing.
#![tactic(auto)]

mod laws;

pub use laws::{
    builders_stay_fine, declarations_keep, fine_sections_are_sound, instructions_keep, steps_join,
};
