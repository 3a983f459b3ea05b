//! What do the qualifiers of a declaration say, or which of them may not stand there (GLSL 4.50, 4.3 to 4.10)?
//!
//! Read `specs/Qualifiers.antt`: the form of a declaration and its first storage qualifier give its role, and then each qualifier is judged,
//! from left to right, by that and by those before it. Each call answers its definition, unless memory was wanting.
#![tactic(auto)]

mod laying;
mod qualified;
mod qualifying;
mod roles;
mod valued;
mod words;

pub use qualified::{Qualified, Role};
pub use qualifying::qualify;
pub use roles::{role_alone, role_of_block, role_of_variables};
pub use valued::Valued;
