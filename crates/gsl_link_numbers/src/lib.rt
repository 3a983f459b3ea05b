//! The program that typed units make together, computed: what is declared once, the new numbers of each unit, and the lists joined (GLSL 4.50, 3.3).
//!
//! What is to be given stands in `specs/Numbers.antt` and `specs/Whole.antt` of `gsl_link_whole`. Read, in `specs/`: `Joining`, `Standing`, `Numbering`;
//! `Placing` is how it is found, and `Keys` of `gsl_link_structs`.
#![tactic(auto)]

mod blocks;
mod heads;
mod interfaces;
mod joining;
mod order;
mod program;
mod sets;
mod site;
mod spots;
mod tables;

pub use blocks::declared_blocks;
pub use program::{WholeProgram, is_main, whole};
pub use sets::put_name;
