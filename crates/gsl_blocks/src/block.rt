//! Blocks as far as their order goes, and what an instruction does to them.

ghost use Rattle.std.specs.Prelude.{◌≡◌};
ghost use Rattle.gsl_blocks.specs.Blocks as spec;

use gsl_instr::{Instruction, Operands, read};

/// The merge of a block (SPIR-V 1.0, 3.32.17).
#[derive(Clone, Copy)]
pub enum Merge {
    Nothing,
    /// Of a selection, with the label behind it.
    Selection { merge: u32 },
    /// Of a loop, with the label behind it and that of its continue part.
    Loop { merge: u32, continue_target: u32 },
}

/// The last instruction of a block (SPIR-V 1.0, 3.32.17).
#[derive(Drop)]
pub enum End<'a> {
    Branch { target: u32 },
    Conditional { on_true: u32, on_false: u32 },
    /// Literals and labels in turn.
    Switch { default: u32, targets: Operands<'a> },
    /// Return, ReturnValue or Kill.
    Leave,
}

/// A block by what its order depends on.
#[derive(Drop)]
pub struct Block<'a> {
    pub label: u32,
    pub merge: Merge,
    pub end: End<'a>,
}

/// What an instruction does to the blocks of its function.
#[derive(Drop)]
pub enum Role<'a> {
    /// It begins the block of a label.
    Opens(u32),
    /// It is the merge of its block.
    Merges(Merge),
    /// It ends its block.
    Ends(End<'a>),
    /// It ends the function.
    Closes,
    /// It is none of these.
    Inside,
}

/// What the instruction of an opcode and its operand words does to the blocks of its function; one that is
/// not in the table does nothing.
pub fn read_role(op: u16, args: &[u32]) -> Role<'_>
    ensures { result ≡ spec.role_at op args.now }
{
    match read(op, args) {
        Some(instruction) => role_of(instruction),
        None => Role::Inside,
    }
}

/// What an instruction does to the blocks of its function.
fn role_of(instruction: Instruction<'_>) -> Role<'_>
    ensures { result ≡ spec.role_of instruction.entry }
{
    match instruction {
        Instruction::Label { result } => Role::Opens(result),
        Instruction::SelectionMerge { merge, control: _ } => Role::Merges(Merge::Selection {
            merge,
        }),
        Instruction::LoopMerge {
            merge,
            continue_target,
            control: _,
        } => Role::Merges(Merge::Loop {
            merge,
            continue_target,
        }),
        Instruction::Branch { target } => Role::Ends(End::Branch { target }),
        Instruction::BranchConditional {
            condition: _,
            on_true,
            on_false,
        } => Role::Ends(End::Conditional { on_true, on_false }),
        Instruction::Switch {
            selector: _,
            default,
            targets,
        } => Role::Ends(End::Switch { default, targets }),
        Instruction::Kill | Instruction::Return | Instruction::ReturnValue { value: _ } =>
            Role::Ends(End::Leave),
        Instruction::FunctionEnd => Role::Closes,
        _ => Role::Inside,
    }
}
