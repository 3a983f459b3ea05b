use crate::instrs::Instrs;
use gsl_base::List;

/// The operand words of an instruction.
pub type Args = List<u32>;

/// An instruction: its opcode and its operand words (SPIR-V 1.0, 2.3).
#[derive(Debug, Drop)]
pub struct Instr {
    pub op: u16,
    pub args: Args,
}

/// A module: its version, one more than its greatest id, and its instructions.
#[derive(Debug, Drop)]
pub struct Module {
    pub version: u32,
    pub bound: u32,
    pub instrs: Instrs,
}
