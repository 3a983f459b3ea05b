//! Do constants, names, operators, constructors and built-in functions fit, as they are lowered, over parts that fit?
//!
//! The definitions are those of `gsl_fitting_known`; each kind is a lemma in `proofs/`.
#![tactic(auto)]

mod laws;

pub use laws::picks_evaluate;
