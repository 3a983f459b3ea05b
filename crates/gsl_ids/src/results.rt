//! The ids that instructions define.

ghost use Rattle.std.specs.Prelude.{◌≡◌, Some};
ghost use Rattle.gsl_instr.specs.Instructions as table;
ghost use Rattle.gsl_valid.specs.Ids as spec;

use gsl_instr::{Instruction, read};

/// The id that the instruction of an opcode and its operand words defines.
pub fn defined_by(op: u16, args: &[u32]) -> Option<u32>
    ensures { result ≡ spec.result (table.read op args.now) }
{
    match read(op, args) {
        Some(instruction) => result_of(instruction),
        None => None,
    }
}

/// The id that an instruction defines.
fn result_of(instruction: Instruction<'_>) -> Option<u32>
    ensures { result ≡ table.result_of instruction.entry }
{
    match instruction {
        Instruction::ExtInstImport { result, name: _ } => Some(result),
        Instruction::ExtInst {
            type_: _,
            result,
            set: _,
            number: _,
            operands: _,
        } => Some(result),
        Instruction::TypeVoid { result } => Some(result),
        Instruction::TypeBool { result } => Some(result),
        Instruction::TypeInt {
            result,
            width: _,
            signedness: _,
        } => Some(result),
        Instruction::TypeVector {
            result,
            component: _,
            count: _,
        } => Some(result),
        Instruction::TypeArray {
            result,
            element: _,
            length: _,
        } => Some(result),
        Instruction::TypeRuntimeArray { result, element: _ } => Some(result),
        Instruction::TypeStruct { result, members: _ } => Some(result),
        Instruction::TypePointer {
            result,
            class: _,
            pointee: _,
        } => Some(result),
        Instruction::TypeFunction {
            result,
            returned: _,
            parameters: _,
        } => Some(result),
        Instruction::ConstantTrue { type_: _, result } => Some(result),
        Instruction::ConstantFalse { type_: _, result } => Some(result),
        Instruction::ConstantNull { type_: _, result } => Some(result),
        Instruction::Constant {
            type_: _,
            result,
            value: _,
        } => Some(result),
        Instruction::ConstantComposite {
            type_: _,
            result,
            parts: _,
        } => Some(result),
        Instruction::CompositeConstruct {
            type_: _,
            result,
            parts: _,
        } => Some(result),
        Instruction::Function {
            type_: _,
            result,
            control: _,
            function_type: _,
        } => Some(result),
        Instruction::FunctionParameter { type_: _, result } => Some(result),
        Instruction::FunctionCall {
            type_: _,
            result,
            function: _,
            arguments: _,
        } => Some(result),
        Instruction::Variable {
            type_: _,
            result,
            class: _,
            initialiser: _,
        } => Some(result),
        Instruction::Load {
            type_: _,
            result,
            pointer: _,
        } => Some(result),
        Instruction::AccessChain {
            type_: _,
            result,
            base: _,
            indexes: _,
        } => Some(result),
        Instruction::ArrayLength {
            type_: _,
            result,
            pointer: _,
            member: _,
        } => Some(result),
        Instruction::VectorExtractDynamic {
            type_: _,
            result,
            vector: _,
            index: _,
        } => Some(result),
        Instruction::VectorShuffle {
            type_: _,
            result,
            first: _,
            second: _,
            components: _,
        } => Some(result),
        Instruction::CompositeExtract {
            type_: _,
            result,
            composite: _,
            indexes: _,
        } => Some(result),
        Instruction::CompositeInsert {
            type_: _,
            result,
            part: _,
            composite: _,
            indexes: _,
        } => Some(result),
        Instruction::Unary {
            op: _,
            type_: _,
            result,
            a: _,
        } => Some(result),
        Instruction::Arithmetic {
            op: _,
            type_: _,
            result,
            a: _,
            b: _,
        } => Some(result),
        Instruction::Shift {
            op: _,
            type_: _,
            result,
            base: _,
            shift: _,
        } => Some(result),
        Instruction::Logical {
            op: _,
            type_: _,
            result,
            a: _,
            b: _,
        } => Some(result),
        Instruction::Comparison {
            op: _,
            type_: _,
            result,
            a: _,
            b: _,
        } => Some(result),
        Instruction::Select {
            type_: _,
            result,
            condition: _,
            a: _,
            b: _,
        } => Some(result),
        Instruction::BitFieldInsert {
            type_: _,
            result,
            base: _,
            insert: _,
            offset: _,
            count: _,
        } => Some(result),
        Instruction::BitFieldExtract {
            op: _,
            type_: _,
            result,
            base: _,
            offset: _,
            count: _,
        } => Some(result),
        Instruction::Label { result } => Some(result),
        Instruction::Name { target: _, text: _ } => None,
        Instruction::MemberName {
            target: _,
            member: _,
            text: _,
        } => None,
        Instruction::MemoryModel {
            addressing: _,
            memory: _,
        } => None,
        Instruction::EntryPoint {
            model: _,
            function: _,
            name: _,
            interface: _,
        } => None,
        Instruction::ExecutionMode {
            function: _,
            mode: _,
            parts: _,
        } => None,
        Instruction::Capability { capability: _ } => None,
        Instruction::FunctionEnd => None,
        Instruction::Store {
            pointer: _,
            value: _,
        } => None,
        Instruction::Decorate {
            target: _,
            decoration: _,
            literals: _,
        } => None,
        Instruction::MemberDecorate {
            target: _,
            member: _,
            decoration: _,
            literals: _,
        } => None,
        Instruction::LoopMerge {
            merge: _,
            continue_target: _,
            control: _,
        } => None,
        Instruction::SelectionMerge {
            merge: _,
            control: _,
        } => None,
        Instruction::Branch { target: _ } => None,
        Instruction::BranchConditional {
            condition: _,
            on_true: _,
            on_false: _,
        } => None,
        Instruction::Switch {
            selector: _,
            default: _,
            targets: _,
        } => None,
        Instruction::Kill => None,
        Instruction::Return => None,
        Instruction::ReturnValue { value: _ } => None,
    }
}
