//! Is a run of a valid module ever stuck?
//!
//! It is not: `valid_modules_are_never_stuck`. Read `specs/Sound`, whose last word is the law, and what it cites of `gsl_sound_code` and
//! `gsl_sound_ids`. The laws are the contracts of calls that do nothing.
#![tactic(auto)]

mod laws;

pub use laws::{reached_states_are_good, steps_keep_states_good, valid_modules_are_never_stuck};
