//! Which typed expression does an expression stand for, which type a type as it is written, and which value an initialiser, or which is their
//! first fault (GLSL 4.50, chapter 5 and 4.1)?
//!
//! Read `specs/Named.antt` (what a name gives), `Sizes.antt` (sizes of arrays), `Callees.antt` (what a call means), then
//! `Expressions.antt`: the parts of an expression from left to right, and then the expression itself; and `Written.antt` and
//! `Initialisers.antt`. The rules of each node are those of `gsl_typing`, `gsl_makers` and `gsl_calls`.
#![tactic(auto)]

mod brackets;
mod callees;
mod declaring;
mod env;
mod initialising;
mod naming;
mod sizing;
mod walking;
mod writing;

pub use brackets::{Dimensions, is_plain_name, with_dimensions};
pub use callees::{basic_type, called_name, called_type};
pub use declaring::{declared, written_type};
pub use env::Env;
pub use initialising::{begun_type, initial};
pub use naming::{instance_of, literal, named};
pub use sizing::size_in;
pub use walking::{dimensions, expression, taken_expression};
pub use writing::{Written, whole_type};
