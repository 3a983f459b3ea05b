//! Does the body of a function, as it is lowered, do what it means?
#![tactic(auto)]

mod laws;

pub use laws::{bodies_do, statements_do};
