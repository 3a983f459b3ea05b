//! Where the words of operands stand in the slots of a run.
#![tactic(auto)]

mod operands;

pub use operands::Operands;
