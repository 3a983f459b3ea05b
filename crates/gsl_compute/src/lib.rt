//! What operators, conversions, constructors, indexes, members, swizzles and built-in functions give on values, computed.
//!
//! Each call equals its definition in `specs/Operations.antt` of `gsl_tree`, unless memory was wanting; what it draws, it takes
//! from the choices. The folding of constants and programs that run the meaning of a shader compute with these calls.
#![tactic(auto)]

mod build;
mod builtins;
mod copy;
mod equality;
mod operators;
mod parts;
mod words;

pub use build::build_value;
pub use builtins::builtin_value;
pub use copy::copy_value;
pub use equality::same_value;
pub use operators::{binary_value, decides, logic_word, step_value, unary_value};
pub use parts::{has_fixed_length, index_value, is_signed, length_of, member_value, swizzle_value};
pub use words::word_in;
