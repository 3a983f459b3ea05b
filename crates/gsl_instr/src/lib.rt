//! Instructions of the profile by the roles of their operands: one table for whatever reads modules.
//!
//! `specs/Forms.antt` is the table: which operands an instruction has, in their order, and how many may
//! follow; `form_of`, `slots` and `rest` give it to code. `specs/Fitting.antt` says which operand words an
//! instruction may have. `specs/Instructions.antt` has an instruction as data, one constructor a form, and the
//! ids that it defines, needs and mentions; `read` carries it.
#![tactic(auto)]

pub mod enumerant;
mod fitting;
mod form;
mod instruction;
mod laws;
pub mod op;
mod operands;
mod parts;
mod slot;
mod string;
mod words;

pub use fitting::{allows, allows_words, fits_text, has_text, text_at};
pub use form::{Form, Row, TABLE, form_of};
pub use instruction::{Instruction, read, read_as};
pub use laws::{one_table, one_text, what_fits};
pub use operands::{rest, slots};
pub use parts::{Part, Parts, is_text, next_of};
pub use slot::{Enumeration, Rest, Slot};
pub use string::push_string;
pub use words::Operands;
