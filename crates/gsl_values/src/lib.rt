//! Words of 32 bits and what the operators and the built-in functions of the language make of them
//! (GLSL 4.50, 4.1.3, 5.9 and 8.3 to 8.8).
//!
//! An `int` and a `uint` are words, and a `bool` is the word 0 or 1. Read `specs/Word.antt` for what a word
//! stands for, `specs/Choices.antt` for what is drawn where the language leaves a result open, and
//! `specs/Operators.antt`, `specs/Vectors.antt` and `specs/Functions.antt` for what the operators, on words and
//! on vectors, and the functions give. `unary`, `binary`, `lanes` and `builtin` each equal their definition and
//! take no memory; the laws of the definitions are in `src/laws.rt`.
#![tactic(auto)]

mod choices;
mod fields;
mod function;
mod functions;
mod lane;
mod laws;
mod op;
mod operators;
mod positions;
mod range;
mod value;
mod vectors;

pub use choices::Choices;
pub use function::Builtin;
pub use functions::builtin;
pub use lane::Lanes;
pub use laws::{
    clamp_within, field_put_back, lanes_in_order, quotient_and_rest, reversed_twice,
    words_and_numbers,
};
pub use op::{BinaryOp, UnaryOp};
pub use operators::{binary, unary};
pub use value::{Value, Values};
pub use vectors::lanes;
