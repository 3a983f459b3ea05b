//! Bytes seen through a layout: reading and writing the words of leaves.
#![tactic(auto)]

mod halves;
mod laws;
mod reading;
mod splitting;
mod view;
mod view_mut;
mod writing;

pub use laws::{four_bytes_change, one_leaf_changes, paths_lead_alike};
pub use view::View;
pub use view_mut::ViewMut;

#[cfg(test)]
mod tests;
