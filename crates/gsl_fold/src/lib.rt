//! Which expressions are constant, and their values (GLSL 4.50, 4.3.3).
//!
//! Read `specs/Constants.antt` of `gsl_tree`: the forms of constant expressions, what they give, and `constant_of`, which
//! `constant` answers exactly, unless memory was wanting.
#![tactic(auto)]

mod folding;
mod held;
mod laws;
mod standing;
mod stop;
mod value;

pub use folding::constant;
pub use gsl_tree::{Consts, Folded, Foldeds};
pub use laws::{
    known_whatever_the_choices, left_open_where_choices_count, not_constant_by_form_or_index,
};
