//! What typed units declare to each other, by one list of structs, and when two declarations of one name agree (GLSL 4.50, 3.3, 4.1.8, 4.3 and 4.4).
//!
//! Read, in `specs/`: `Firsts`, `Types`, `Structs`, `Declarations`, `Agreement`.
#![tactic(auto)]

mod agreement;
mod siding;
mod types;

pub use agreement::{
    agree_functions, agree_interfaces, agree_members, agree_variables, same_function, same_kind,
    same_params,
};
pub use siding::retype_unit;
pub use types::{new_number, retyped, same_type};
