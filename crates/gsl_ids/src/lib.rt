//! Does a module define its ids once, and before they are used?
//!
//! `ids_defined_once` and `defined_before_use` answer what `gsl_valid` says of V2 and V3 (`specs/IdsDefinedOnce.antt` and
//! `DefinedBeforeUse.antt` there), each in one pass over the module's instructions. `Definitions` is the table of what ids stand for,
//! and `first_failed` the pass of every rule, over a `Test` of instructions one by one.
#![tactic(auto)]

mod each;
mod once;
mod operands;
mod pass;
mod results;
mod table;
mod uses;

pub use each::{Each, count_of_words};
pub use once::ids_defined_once;
pub use operands::{UseTest, all_used};
pub use pass::{Test, first_failed};
pub use results::defined_by;
pub use table::Definitions;
pub use uses::defined_before_use;
