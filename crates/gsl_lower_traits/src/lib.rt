//! What is known of an expression before it is lowered: whether it is a literal, whether its code has labels, whether it may be evaluated where
//! it does not count.
//!
//! `specs/Traits.antt` says it kind by kind; `traits_of` carries the contract.
#![tactic(auto)]

mod traits;

pub use traits::{Traits, is_dynamic, is_plain, is_selected, is_short, spills, traits_of};
