//! Do indexes that are known lead where they mean to, and are parts of blocks read where expressions lead to them, and does a pointer lead there?
#![tactic(auto)]

mod laws;
mod members;

pub use laws::literals_lead;
pub use members::{
    lengths_are_counted, members_are_counted, members_are_pointed_to, members_are_read,
    members_stray,
};
