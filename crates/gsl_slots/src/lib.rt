//! What ids stand for, as words in slots.
#![tactic(auto)]

mod laws;
mod slots;

pub use laws::{an_id_is_given, others_are_kept, tops_rise};
pub use slots::Slots;
