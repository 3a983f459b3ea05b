//! Are the constants and variables of a module of types that they may have?
//!
//! `constants` and `globals` answer what `gsl_valid` says of V5 and V6 (`specs/ConstantRules.antt` and `GlobalRules.antt` there),
//! each in one pass over the module's instructions (`first_failed` of `gsl_ids`).
#![tactic(auto)]

mod constant;
mod global;
mod known;
mod type_rule;

pub use constant::constants;
pub use global::globals;
pub use type_rule::types;
