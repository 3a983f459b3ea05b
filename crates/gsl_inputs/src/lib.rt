//! What an input gives to a shader and to a module alike: definitions.
//!
//! Read `specs/Given.antt` and `specs/Demands.antt`.
#![tactic(auto)]
