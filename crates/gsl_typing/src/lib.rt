//! What do operators make of typed operands, and which of them do not fit (GLSL 4.50, 5.8 and 5.9)?
//!
//! Read `specs/Rows.antt` (the faults of one node), `Scene.antt`, `Conversions.antt`, `Fitting.antt`, `Uses.antt` and then
//! `Operators.antt`, which has one definition for each kind of node. Each call answers its definition, unless memory was wanting.
#![tactic(auto)]

mod assignments;
mod fits;
mod nodes;
mod operators;
mod refusing;
mod scene;
mod shapes;
mod types;
mod uses;

pub use assignments::assigned;
pub use fits::{Fitting, fitted, unary_type};
pub use operators::{binary, choice, comma, postfix, unary};
pub use refusing::refuse;
pub use scene::{Part, Scene};
pub use shapes::{Shape, is_integer, of_shape, shape_of};
pub use types::{as_type, common, copy, serves_as};
pub use uses::{
    is_bool, is_integral, is_large, is_runtime, is_unread, is_value_type, is_writable, told_leaves,
    whole,
};
