//! The numbers that operands may be.

ghost use Rattle.std.specs.Prelude.{◌≡◌};
ghost use Rattle.gsl_valid.specs.Instruction.{read as read_as, is_such};
ghost use Rattle.gsl_valid.specs.Sections as spec;
ghost use Rattle.std.specs.List.{list_all};
ghost use Rattle.std.specs.Str.{bytes_eq};

use gsl_instr::enumerant::{
    built_in, capability, decoration, execution_mode, execution_model, memory_model, storage_class,
};
use gsl_instr::{Instruction, read};
use gsl_words::{Module, VERSION_1_3};

/// The words of the text `GLSL.std.450`.
const EXTENDED: [u32; 4] = [0x4C53_4C47, 0x6474_732E, 0x3035_342E, 0];

/// Whether the instruction of an opcode is in the table, and those of its operands that are numbers are such as they may be.
pub(crate) fn has_numbers_at(of: &Module, op: u16, args: &[u32]) -> bool
    ensures { result ≡ is_such (spec.has_numbers of.now) (read_as (record { op = op; args = args.now })) }
{
    match read(op, args) {
        Some(instruction) => has_numbers(of, instruction),
        None => false,
    }
}

/// Whether those operands of an instruction that are numbers are such as they may be.
fn has_numbers(of: &Module, instruction: Instruction<'_>) -> bool
    ensures { result ≡ spec.has_numbers of.now instruction.entry }
{
    match instruction {
        Instruction::ExtInstImport { name, .. } => is_extended(name.as_slice()),
        Instruction::MemoryModel { addressing, memory } => {
            addressing == memory_model::LOGICAL && memory == memory_model::GLSL450
        }
        Instruction::EntryPoint { model, .. } => is_model(model),
        Instruction::ExecutionMode { mode, parts, .. } => is_mode(mode, parts.as_slice()),
        Instruction::Capability { capability } => capability == capability::SHADER,
        Instruction::TypeInt { width, .. } => width == 32,
        Instruction::TypePointer { class, .. } => is_class(of.version, class),
        Instruction::Function { control, .. } => control == 0,
        Instruction::Variable { class, .. } => is_class(of.version, class),
        Instruction::Decorate {
            decoration,
            literals,
            ..
        } => has_built_in(decoration, literals.as_slice()),
        Instruction::MemberDecorate {
            decoration,
            literals,
            ..
        } => has_built_in(decoration, literals.as_slice()),
        Instruction::LoopMerge { control, .. } => control == 0,
        Instruction::SelectionMerge { control, .. } => control == 0,
        _ => true,
    }
}

/// Whether a text is the name of the set of extended instructions.
fn is_extended(name: &[u32]) -> bool
    ensures { result ≡ bytes_eq name.now spec.extended_words }
{
    name == EXTENDED.as_slice()
}

/// Whether a number is a stage.
fn is_model(model: u32) -> bool
    ensures { result ≡ spec.is_model model }
{
    model == execution_model::VERTEX
        || model == execution_model::FRAGMENT
        || model == execution_model::GL_COMPUTE
}

/// Whether an execution mode has as many words as it needs.
fn is_mode(mode: u32, parts: &[u32]) -> bool
    ensures { result ≡ spec.is_mode mode parts.now }
{
    mode == execution_mode::LOCAL_SIZE && parts.len() == 3
        || mode == execution_mode::ORIGIN_UPPER_LEFT && parts.len() == 0
}

/// Whether a number is a storage class of a version.
fn is_class(version: u32, class: u32) -> bool
    ensures { result ≡ spec.is_class version class }
{
    class == storage_class::INPUT
        || class == storage_class::UNIFORM
        || class == storage_class::OUTPUT
        || class == storage_class::PRIVATE
        || class == storage_class::FUNCTION
        || class == storage_class::PUSH_CONSTANT
        || class == storage_class::STORAGE_BUFFER && version == VERSION_1_3
}

/// Whether the literals of a BuiltIn are numbers of built-in variables.
fn has_built_in(kind: u32, literals: &[u32]) -> bool
    ensures { result ≡ spec.has_built_in kind literals.now }
{
    kind != decoration::BUILT_IN || are_built_in(literals)
}

/// Whether numbers are those of built-in variables.
fn are_built_in(numbers: &[u32]) -> bool
    ensures { result ≡ list_all spec.is_built_in numbers.now }
{
    numbers.iter().all(|n| is_built_in(*n))
}

/// Whether a number is that of a built-in variable.
fn is_built_in(n: u32) -> bool
    ensures { result ≡ spec.is_built_in n }
{
    n == built_in::NUM_WORKGROUPS
        || n == built_in::WORKGROUP_ID
        || n == built_in::LOCAL_INVOCATION_ID
        || n == built_in::GLOBAL_INVOCATION_ID
        || n == built_in::LOCAL_INVOCATION_INDEX
        || n == built_in::VERTEX_INDEX
        || n == built_in::INSTANCE_INDEX
}
