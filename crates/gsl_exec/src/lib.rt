//! What does a module's file do on the input of a manifest?
//!
//! Read `specs/Owed.antt`, which says what is owed over the files that are told; `specs/Steps.antt` is how far the steps of the code come with it. The call that carries the contract is `exec`;
//! `exec_valid` is the part of it behind the valid module and the bytes of the manifest.
#![tactic(auto)]

mod judging;
mod laws;
mod reading;
mod running;
mod stop;
mod texts;

pub use judging::{judged, rejection};
pub use laws::{one_owed, one_owed_of_valid};
pub use reading::{MAX_MODULE_BYTES, read_module};
pub use running::{exec, exec_valid};
pub use stop::{Stop, stopped, told};
