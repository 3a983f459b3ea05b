//! What do variables at the top of a unit declare, which are global ones, inputs and outputs, or which is their first fault (GLSL 4.50, 4.3)?
//!
//! Read `specs/Variables.antt`: global variables, inputs and outputs, and then one variable of a declaration and all of them; and then
//! `Globals.antt`: whole declarations. Each call answers its definition, unless memory was wanting.
#![tactic(auto)]

mod declarations;
mod declaring;
mod interfaces;
mod variables;

pub use declarations::{alone, struct_variables, typed_variables};
pub use declaring::{declarator, declarators};
pub use interfaces::{begun_interface, interface, is_no_interface, may_be_interface};
pub use variables::{begun_variable, may_begin, plain_variable, set_variable};
