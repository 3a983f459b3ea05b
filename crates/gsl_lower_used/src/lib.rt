//! What of bodies is lowered? Definitions alone.
//!
//! Read `specs/Lowered.antt`.
#![tactic(auto)]
