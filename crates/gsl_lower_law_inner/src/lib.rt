//! Which instructions do the bodies of functions put?
#![tactic(auto)]

mod laws;

pub use laws::{
    bodies_put_inner_code, calls_put_inner_code, expressions_put_inner_code,
    inner_code_declares_no_variables, inner_code_goes_on, statements_put_inner_code,
};
