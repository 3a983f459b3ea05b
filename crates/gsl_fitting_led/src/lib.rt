//! Do members, indexes, swizzles, assignments, steps and calls fit, as they are lowered, over parts that fit?
//!
//! The definitions are those of `gsl_fitting_known`; each kind is a lemma in `proofs/`.
#![tactic(auto)]

mod laws;

pub use laws::less_may_be_stored;
