//! Is the entry point of a module as it must be, with its mode, its interface, its locations and its built-in variables?
//!
//! `entry` answers what `gsl_valid` says of V9 (`specs/EntryRules.antt` there), in one pass over the module's instructions. What the pass asks of
//! the whole module stands in a `Stage`.
#![tactic(auto)]

mod entry_point;
mod interface;
mod location;
mod main_function;
mod marks;
mod modes;
mod stage;

pub use entry_point::entry;
