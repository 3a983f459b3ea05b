//! Which typed statement does a statement stand for, or which is its first fault (GLSL 4.50, chapter 6)?
//!
//! Read `specs/Rules.antt` and `Switches.antt` (the rules of single statements), and then `Statements.antt`: the parts of a statement
//! from left to right, and then the statement itself.
#![tactic(auto)]

mod gathered;
mod heads;
mod rules;
mod singles;
mod switches;
mod within;

pub use gathered::{
    Gathered, are_arms, case_word, constant_word, default_label, has_many, misplaced_case,
    misplaced_default,
};
pub use heads::{
    Head, Test, behind_body, between, eval, if_done, if_head, loop_of, tested, tested_if,
    while_head,
};
pub use rules::{alone, broken, condition_fault, continued, discarded, returned, returned_value};
pub use singles::{return_with, stray_case};
pub use switches::{is_label, labelled, switch_head};
pub use within::{Within, in_loop, in_part, in_row, in_switch};
