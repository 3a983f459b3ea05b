//! Which functions call which, and how deep calls nest.
//!
//! Read `specs/Calls.antt`.
#![tactic(auto)]

mod call;
mod depth;
mod gather;
mod graph;
mod heads;
mod ranks;
mod rows;
mod search;
mod table;
mod units;

pub use call::{Call, Calls};
pub use graph::CallGraph;
pub use units::{calls_in, calls_of, unit_calls};
