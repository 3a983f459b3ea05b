//! Do the operands of instructions have the types that the instructions need?
//!
//! `operand_types` and `extended` answer what `gsl_valid` says of V14 and V17 (`specs/OperandRules.antt` and `ExtendedRules.antt`
//! there), each in one pass over the module's instructions (`first_failed` of `gsl_ids`).
#![tactic(auto)]

mod builtin;
mod composite;
mod operand;
mod scalar;
mod sign;

pub use builtin::extended;
pub use operand::operand_types;
