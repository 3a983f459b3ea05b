//! Do the instructions of a module stand where they may, and are ids used where they may be?
//!
//! `sections`, `function_shape`, `structure`, `locality` and `returns` answer what `gsl_valid` says of V1, V10, V12, V13 and V16, each in one
//! pass over the module's instructions. `Standing` is where the code stands in its function.
#![tactic(auto)]

mod block;
mod function;
mod leaving;
mod near;
mod numbers;
mod order;
mod standing;

pub use block::structure;
pub use function::function_shape;
pub use leaving::returns;
pub use near::locality;
pub use order::sections;
