//! Modules as text: one instruction a line.
//!
//! `specs/Texts.antt` says which module a text is and where a text is wrong, over `Words.antt`, `Operands.antt` and
//! `Instructions.antt`; `assemble` and `show` carry it. `specs/Reading.antt` is how the code reads, `specs/Shown.antt` what
//! `show` writes.
#![tactic(auto)]

mod assembling;
mod chars;
mod fault;
mod head;
mod instruction;
mod laws;
mod line;
mod names;
mod operand;
mod place;
mod showing;
mod source;
mod step;
mod word;

pub use assembling::assemble;
pub use fault::AsmFault;
pub use laws::{one_meaning, shown_and_read};
pub use showing::show;
