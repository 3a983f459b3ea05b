//! How heavy is a program, and how many leaves do its variables have?
//!
//! Read `specs/Weights.antt` of `gsl_tree`. No count is told beyond 2^20 (`specs/Telling.antt`), which is above all limits on them.
#![tactic(auto)]

mod declarations;
mod expressions;
mod leaves;
mod statements;
mod telling;
mod whole;

pub use leaves::few_leaves;
pub use telling::MOST_TOLD;
pub use whole::{function_leaves, global_leaves, program_weight};
