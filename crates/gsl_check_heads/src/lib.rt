//! What does the head of a function declare, or which is its first fault (GLSL 4.50, 6.1), and in what is its body checked?
//!
//! Read `specs/Builtins.antt` (what is declared before a unit), and then `Heads.antt`: qualifiers of parameters, parameters, heads, and what is
//! declared in a body and behind it. Each call answers its definition, unless memory was wanting.
#![tactic(auto)]

mod builtin;
mod entering;
mod heading;
mod matching;
mod parameter;
mod parameters;
mod saying;

pub use builtin::{begun_in, names_function};
pub use entering::{enter, leave};
pub use heading::{declared_head, header, may_be_head};
pub use matching::{disagrees, has_body_of, head_number};
pub use parameter::{Head, Parameter, Parameters, Said};
pub use parameters::{may_be_param, may_be_unnamed, one_param, params_in, typed_params};
pub use saying::said_in;
