//! The form of shaders that can be lowered so far: one buffer block of ints, and a `main` that assigns sums.
//!
//! `specs/Trees.antt` says which typed lists are of the form, with the limits of `specs/Form.antt`; `read_unit` finds
//! the program of a unit and `read_linked` that of a linked program, as `specs/Reading.antt` does.
#![tactic(auto)]

mod laws;
mod program;
mod reading;

pub use laws::one_program;
pub use program::{
    MAX_MEMBERS, MAX_STATEMENTS, MAX_TERMS, Names, Program, Statement, Statements, Term, Terms,
};
pub use reading::{read_linked, read_unit};
