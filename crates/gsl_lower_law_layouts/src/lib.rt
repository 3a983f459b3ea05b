//! Do the leaves of a type stand where its layout has them?
#![tactic(auto)]

mod laws;

pub use laws::leaves_are_laid;
