//! Where lowering stands, values that wait while blocks end and begin, and blocks of two ways that meet again.
//!
//! `specs/Flow.antt` has the words for what lowering works on: what a builder holds and a place. `Waiting` says how values wait in
//! holders, `Ways` how two ways are entered and meet.
#![tactic(auto)]

mod blocks;
mod flow;
mod place;
mod waiting;

pub use blocks::{Fork, begin_choice, begin_short, join, other_way};
pub use flow::{find_type, id_in, opening, type_id};
pub use place::{FlowPlace, Ids, TypeIds};
pub use waiting::{fetch, fetch_reached, hold, hold_reached, holder, keep, take_back};
