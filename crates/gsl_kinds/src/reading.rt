//! What an instruction is to its module, read from its words.

ghost use Rattle.std.specs.Prelude.{◌≡◌};
ghost use Rattle.gsl_instr.specs.Instructions as table;
ghost use Rattle.gsl_kinds.specs.Seen as seen;
ghost use Rattle.gsl_valid.specs.Kinds as spec;

use crate::kind::{Decoration, Kind, Place, Shape, Value, Variable};
use gsl_instr::{Instruction, read};

/// What the instruction of an opcode and its operand words is.
pub fn kind_at(op: u16, args: &[u32]) -> Kind<'_>
    ensures { seen.kind_seen result ≡ spec.kind (table.read op args.now) }
{
    kind_if(read(op, args))
}

/// What an instruction is, if there is one.
pub fn kind_if(instruction: Option<Instruction<'_>>) -> Kind<'_>
    ensures { seen.kind_seen result ≡ spec.kind instruction.entry }
{
    match instruction {
        Some(instruction) => kind_of(instruction),
        None => Kind::Absent,
    }
}

/// What an instruction is.
fn kind_of(instruction: Instruction<'_>) -> Kind<'_>
    ensures { seen.kind_seen result ≡ spec.kind_of instruction.entry }
{
    match instruction {
        Instruction::Name { target: _, text: _ } => Kind::Debugs,
        Instruction::MemberName {
            target: _,
            member: _,
            text: _,
        } => Kind::Debugs,
        Instruction::ExtInstImport { result: _, name: _ } => Kind::Imports,
        Instruction::ExtInst {
            type_,
            result: _,
            set: _,
            number: _,
            operands: _,
        } => Kind::Gives { type_ },
        Instruction::MemoryModel {
            addressing: _,
            memory: _,
        } => Kind::Sets,
        Instruction::EntryPoint {
            model,
            function,
            name,
            interface,
        } => Kind::Enters {
            model,
            function,
            name: name.as_slice(),
            interface: interface.as_slice(),
        },
        Instruction::ExecutionMode {
            function,
            mode,
            parts,
        } => Kind::Modes {
            function,
            mode,
            parts: parts.as_slice(),
        },
        Instruction::Capability { capability: _ } => Kind::Asks,
        Instruction::TypeVoid { result: _ } => Kind::Declares(Shape::Void),
        Instruction::TypeBool { result: _ } => Kind::Declares(Shape::Bool),
        Instruction::TypeInt {
            result: _,
            width: _,
            signedness,
        } => Kind::Declares(Shape::Int { signedness }),
        Instruction::TypeVector {
            result: _,
            component,
            count,
        } => Kind::Declares(Shape::Vector { component, count }),
        Instruction::TypeArray {
            result: _,
            element,
            length,
        } => Kind::Declares(Shape::Array { element, length }),
        Instruction::TypeRuntimeArray { result: _, element } => Kind::Declares(Shape::RuntimeArray {
            element,
        }),
        Instruction::TypeStruct { result, members } => Kind::Declares(Shape::Struct {
            id: result,
            members: members.as_slice(),
        }),
        Instruction::TypePointer {
            result: _,
            class,
            pointee,
        } => Kind::Declares(Shape::Pointer { class, pointee }),
        Instruction::TypeFunction {
            result: _,
            returned,
            parameters,
        } => Kind::Declares(Shape::Function {
            returned,
            parameters: parameters.as_slice(),
        }),
        Instruction::ConstantTrue { type_, result: _ } => Kind::Fixes {
            type_,
            value: Value::Truth,
        },
        Instruction::ConstantFalse { type_, result: _ } => Kind::Fixes {
            type_,
            value: Value::Truth,
        },
        Instruction::ConstantNull { type_, result: _ } => Kind::Fixes {
            type_,
            value: Value::Zeros,
        },
        Instruction::Constant {
            type_,
            result: _,
            value,
        } => Kind::Fixes {
            type_,
            value: Value::Word(value),
        },
        Instruction::ConstantComposite {
            type_,
            result: _,
            parts,
        } => Kind::Fixes {
            type_,
            value: Value::Parts(parts.as_slice()),
        },
        Instruction::CompositeConstruct {
            type_,
            result: _,
            parts: _,
        } => Kind::Gives { type_ },
        Instruction::Function {
            type_,
            result,
            control: _,
            function_type,
        } => Kind::Begins {
            type_,
            id: result,
            function_type,
        },
        Instruction::FunctionParameter { type_, result: _ } => Kind::Takes { type_ },
        Instruction::FunctionEnd => Kind::Ended,
        Instruction::FunctionCall {
            type_,
            result: _,
            function,
            arguments,
        } => Kind::Calls {
            type_,
            function,
            arguments: arguments.as_slice(),
        },
        Instruction::Variable {
            type_,
            result,
            class,
            initialiser,
        } => Kind::Holds(Variable {
            type_,
            id: result,
            class,
            initialiser: initialiser.as_slice(),
        }),
        Instruction::Load {
            type_,
            result: _,
            pointer: _,
        } => Kind::Gives { type_ },
        Instruction::Store {
            pointer: _,
            value: _,
        } => Kind::Does,
        Instruction::AccessChain {
            type_,
            result: _,
            base: _,
            indexes: _,
        } => Kind::Gives { type_ },
        Instruction::ArrayLength {
            type_,
            result: _,
            pointer: _,
            member: _,
        } => Kind::Gives { type_ },
        Instruction::Decorate {
            target,
            decoration,
            literals,
        } => Kind::Decorates(Decoration {
            place: Place::On { target },
            kind: decoration,
            literals: literals.as_slice(),
        }),
        Instruction::MemberDecorate {
            target,
            member,
            decoration,
            literals,
        } => Kind::Decorates(Decoration {
            place: Place::OnMember { target, member },
            kind: decoration,
            literals: literals.as_slice(),
        }),
        Instruction::VectorExtractDynamic {
            type_,
            result: _,
            vector: _,
            index: _,
        } => Kind::Gives { type_ },
        Instruction::VectorShuffle {
            type_,
            result: _,
            first: _,
            second: _,
            components: _,
        } => Kind::Gives { type_ },
        Instruction::CompositeExtract {
            type_,
            result: _,
            composite: _,
            indexes: _,
        } => Kind::Gives { type_ },
        Instruction::CompositeInsert {
            type_,
            result: _,
            part: _,
            composite: _,
            indexes: _,
        } => Kind::Gives { type_ },
        Instruction::Unary {
            op: _,
            type_,
            result: _,
            a: _,
        } => Kind::Gives { type_ },
        Instruction::Arithmetic {
            op: _,
            type_,
            result: _,
            a: _,
            b: _,
        } => Kind::Gives { type_ },
        Instruction::Shift {
            op: _,
            type_,
            result: _,
            base: _,
            shift: _,
        } => Kind::Gives { type_ },
        Instruction::Logical {
            op: _,
            type_,
            result: _,
            a: _,
            b: _,
        } => Kind::Gives { type_ },
        Instruction::Comparison {
            op: _,
            type_,
            result: _,
            a: _,
            b: _,
        } => Kind::Gives { type_ },
        Instruction::Select {
            type_,
            result: _,
            condition: _,
            a: _,
            b: _,
        } => Kind::Gives { type_ },
        Instruction::BitFieldInsert {
            type_,
            result: _,
            base: _,
            insert: _,
            offset: _,
            count: _,
        } => Kind::Gives { type_ },
        Instruction::BitFieldExtract {
            op: _,
            type_,
            result: _,
            base: _,
            offset: _,
            count: _,
        } => Kind::Gives { type_ },
        Instruction::LoopMerge {
            merge: _,
            continue_target: _,
            control: _,
        } => Kind::Merges,
        Instruction::SelectionMerge {
            merge: _,
            control: _,
        } => Kind::Merges,
        Instruction::Label { result: _ } => Kind::Opens,
        Instruction::Branch { target: _ } => Kind::Leaves,
        Instruction::BranchConditional {
            condition: _,
            on_true: _,
            on_false: _,
        } => Kind::Leaves,
        Instruction::Switch {
            selector: _,
            default: _,
            targets: _,
        } => Kind::Leaves,
        Instruction::Kill => Kind::Leaves,
        Instruction::Return => Kind::Leaves,
        Instruction::ReturnValue { value: _ } => Kind::Leaves,
    }
}
