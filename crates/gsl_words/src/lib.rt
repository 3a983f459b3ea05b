//! SPIR-V modules as data, and the bytes of a module's file.
//!
//! `specs/Instructions.antt` says which modules have a file, over the table of `gsl_instr`, and
//! `specs/Bytes.antt` which bytes it is; `encode` writes it. `specs/Faults.antt` says what is wrong with other
//! bytes; `decode` reads a file or answers that.
#![tactic(auto)]

mod decoding;
mod encoding;
mod fault;
mod instrs;
mod laws;
mod module;
mod target;

pub use decoding::decode;
pub use encoding::{MAGIC, encode};
pub use fault::WordFault;
pub use instrs::Instrs;
pub use laws::one_judgement;
pub use module::{Args, Instr, Module};
pub use target::{Target, VERSION_1_0, VERSION_1_3};
