//! Does what reads and stores where expressions lead fit?
//!
//! Read `specs/Leading.antt` and `Places.antt`. The laws are the contracts of calls that do nothing.
#![tactic(auto)]

mod laws;

pub use laws::{
    components_fit, pointed_fits, pointers_fit, reads_fit, renewals_fit, stores_fit, updates_serve,
};
