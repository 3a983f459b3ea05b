//! Do the variables of a module have the decorations that they need, and is memory used as it may be?
//!
//! `decorations` and `memory` answer what `gsl_valid` says of V7 and V15 (`specs/DecorationRules.antt` and `MemoryRules.antt` there), each in one
//! pass over the module's instructions. `Variables` is the table of the variables by their classes and bindings.
#![tactic(auto)]

mod access;
mod chain;
mod decoration;
mod guards;
mod placing;
mod storage;
mod target;
mod variable;
mod variables;

pub use access::memory;
pub use decoration::decorations;
