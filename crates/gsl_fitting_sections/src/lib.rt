//! Which rules does the module keep that a builder's sections make?
//!
//! Read `specs/Sections.antt`. The laws are the contracts of calls that do nothing.
#![tactic(auto)]

mod laws;

pub use laws::{
    sections_are_in_order, sections_are_typed, sections_are_within_limits,
    sections_declare_what_may_be, sections_decorate_as_they_may, sections_define_their_ids,
    sections_have_functions, sections_use_what_is_near,
};
