//! Are the limits of a module kept, and are its functions called as they may be?
//!
//! `limits` and `calls` answer what `gsl_valid` says of V18 and V11 (`specs/LimitRules.antt` and `CallRules.antt` there), each in one pass over
//! the module's instructions. `graph.rt` knows the calls of the whole module: how deeply they nest, whether there is a cycle, and which
//! function reaches which.
#![tactic(auto)]

mod call;
mod callees;
mod depth;
mod graph;
mod heights;
mod laws;
mod limit;
mod pointers;
mod ranks;
mod reach;
mod search;
mod table;

pub use call::calls;
pub use laws::reached_in_the_closure;
pub use limit::limits;
