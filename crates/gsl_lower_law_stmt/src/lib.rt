//! Do statements as they are lowered do what they mean?
#![tactic(auto)]

mod laws;

pub use laws::{
    choices_are_made, expressions_are_evaluated, functions_are_left, loops_are_left, nothing_does,
    statements_follow_each_other, variables_are_declared,
};
