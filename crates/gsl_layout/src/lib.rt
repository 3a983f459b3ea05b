//! Where each leaf of a block lies in its bytes, by the rules std140 and std430 and by what is said of its members' places.
#![tactic(auto)]

mod gathered;
mod kind;
mod laid;
mod laws;
mod measured;
mod measuring;
mod misplaced;
mod outline;
mod placing;
mod refusal;
mod rules;

pub use gathered::MOST_BYTES;
pub use kind::Kind;
pub use laid::{Laid, Laids, Offsets};
pub use laws::{
    blocks_are_well_formed, members_stand_apart, members_stand_where_they_are_placed,
    need_is_within_size, places_are_rounded_up, rules_raise, std140_counts_in_16,
};
pub use measuring::{lay, lay_placed};
pub use misplaced::{end_of_placed, outline_structs};
pub use outline::{Outline, Outlines};
pub use placing::{Placing, Placings};
pub use refusal::{LayRefusal, PlaceRefusal};
pub use rules::{Rules, Std140, Std430};
