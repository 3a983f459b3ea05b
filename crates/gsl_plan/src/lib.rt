//! Which command the words of a command line ask for.
//!
//! `specs/Plan.antt` says which words are which command. `clap` reads them, by the command in
//! `specs/Found.antt`, and `plan` answers by what it found.
#![tactic(auto)]

mod command;
mod matching;
mod planning;

pub use command::Command;
pub use planning::{MAX_FILES, plan};
