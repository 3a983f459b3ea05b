//! Has a program that was linked a fault of linking, taken as one unit? It has none.
//!
//! Read, in `specs/`: `Alone`, which says what stands once in a program, and which new numbers are the old ones. The laws are the contracts of
//! calls that do nothing.
#![tactic(auto)]

mod laws;

pub use laws::{
    joined_programs_are_linked, joined_programs_stand_once, programs_alone_are_themselves,
    structs_joined_again_stay, trees_by_their_own_numbers_stay,
};
