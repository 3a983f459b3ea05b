//! Instructions by the roles of their operands.

ghost use Rattle.std.specs.Prelude.{◌≡◌, List, drop, slice_index};
ghost use Rattle.gsl_instr.specs.Instructions as spec;

use crate::form::{Form, form_of};
use crate::words::{Operands, after_text, arg, from, text_words};

/// An instruction of the table by the roles of its operands (SPIR-V 1.0, 3.32). `type_` is the id of its
/// result's type and `result` the id that it defines; a text stands as its words.
#[derive(Drop)]
pub enum Instruction<'a> {
    /// A debug name of an id.
    Name {
        target: u32,
        text: Operands<'a>,
    },
    /// A debug name of a member of a struct.
    MemberName {
        target: u32,
        member: u32,
        text: Operands<'a>,
    },
    /// An import of a set of extended instructions.
    ExtInstImport {
        result: u32,
        name: Operands<'a>,
    },
    /// An extended instruction by its number in its set.
    ExtInst {
        type_: u32,
        result: u32,
        set: u32,
        number: u32,
        operands: Operands<'a>,
    },
    /// The addressing and memory model.
    MemoryModel {
        addressing: u32,
        memory: u32,
    },
    /// An entry point of a stage, its name and its interface.
    EntryPoint {
        model: u32,
        function: u32,
        name: Operands<'a>,
        interface: Operands<'a>,
    },
    /// A mode of an entry point, with its numbers.
    ExecutionMode {
        function: u32,
        mode: u32,
        parts: Operands<'a>,
    },
    /// A capability that the module declares.
    Capability {
        capability: u32,
    },
    TypeVoid {
        result: u32,
    },
    TypeBool {
        result: u32,
    },
    TypeInt {
        result: u32,
        width: u32,
        signedness: u32,
    },
    TypeVector {
        result: u32,
        component: u32,
        count: u32,
    },
    TypeArray {
        result: u32,
        element: u32,
        length: u32,
    },
    TypeRuntimeArray {
        result: u32,
        element: u32,
    },
    TypeStruct {
        result: u32,
        members: Operands<'a>,
    },
    TypePointer {
        result: u32,
        class: u32,
        pointee: u32,
    },
    TypeFunction {
        result: u32,
        returned: u32,
        parameters: Operands<'a>,
    },
    ConstantTrue {
        type_: u32,
        result: u32,
    },
    ConstantFalse {
        type_: u32,
        result: u32,
    },
    /// Zeros of any type.
    ConstantNull {
        type_: u32,
        result: u32,
    },
    Constant {
        type_: u32,
        result: u32,
        value: u32,
    },
    ConstantComposite {
        type_: u32,
        result: u32,
        parts: Operands<'a>,
    },
    CompositeConstruct {
        type_: u32,
        result: u32,
        parts: Operands<'a>,
    },
    Function {
        type_: u32,
        result: u32,
        control: u32,
        function_type: u32,
    },
    FunctionParameter {
        type_: u32,
        result: u32,
    },
    FunctionEnd,
    FunctionCall {
        type_: u32,
        result: u32,
        function: u32,
        arguments: Operands<'a>,
    },
    Variable {
        type_: u32,
        result: u32,
        class: u32,
        initialiser: Operands<'a>,
    },
    Load {
        type_: u32,
        result: u32,
        pointer: u32,
    },
    Store {
        pointer: u32,
        value: u32,
    },
    AccessChain {
        type_: u32,
        result: u32,
        base: u32,
        indexes: Operands<'a>,
    },
    ArrayLength {
        type_: u32,
        result: u32,
        pointer: u32,
        member: u32,
    },
    Decorate {
        target: u32,
        decoration: u32,
        literals: Operands<'a>,
    },
    MemberDecorate {
        target: u32,
        member: u32,
        decoration: u32,
        literals: Operands<'a>,
    },
    VectorExtractDynamic {
        type_: u32,
        result: u32,
        vector: u32,
        index: u32,
    },
    VectorShuffle {
        type_: u32,
        result: u32,
        first: u32,
        second: u32,
        components: Operands<'a>,
    },
    CompositeExtract {
        type_: u32,
        result: u32,
        composite: u32,
        indexes: Operands<'a>,
    },
    CompositeInsert {
        type_: u32,
        result: u32,
        part: u32,
        composite: u32,
        indexes: Operands<'a>,
    },
    /// An operator of one operand, by its opcode.
    Unary {
        op: u16,
        type_: u32,
        result: u32,
        a: u32,
    },
    /// An operator on integers or on their bits, by its opcode.
    Arithmetic {
        op: u16,
        type_: u32,
        result: u32,
        a: u32,
        b: u32,
    },
    /// A shift, by its opcode.
    Shift {
        op: u16,
        type_: u32,
        result: u32,
        base: u32,
        shift: u32,
    },
    /// An operator on truth values, by its opcode.
    Logical {
        op: u16,
        type_: u32,
        result: u32,
        a: u32,
        b: u32,
    },
    /// A comparison of integers, by its opcode.
    Comparison {
        op: u16,
        type_: u32,
        result: u32,
        a: u32,
        b: u32,
    },
    Select {
        type_: u32,
        result: u32,
        condition: u32,
        a: u32,
        b: u32,
    },
    BitFieldInsert {
        type_: u32,
        result: u32,
        base: u32,
        insert: u32,
        offset: u32,
        count: u32,
    },
    /// A bit field taken out, with or without sign by its opcode.
    BitFieldExtract {
        op: u16,
        type_: u32,
        result: u32,
        base: u32,
        offset: u32,
        count: u32,
    },
    LoopMerge {
        merge: u32,
        continue_target: u32,
        control: u32,
    },
    SelectionMerge {
        merge: u32,
        control: u32,
    },
    Label {
        result: u32,
    },
    Branch {
        target: u32,
    },
    BranchConditional {
        condition: u32,
        on_true: u32,
        on_false: u32,
    },
    /// A branch by an integer: literals and labels in turn.
    Switch {
        selector: u32,
        default: u32,
        targets: Operands<'a>,
    },
    Kill,
    Return,
    ReturnValue {
        value: u32,
    },
}

/// The instruction of an opcode and its operand words, if the opcode is one of the profile. Where the table
/// has no room for the words, a missing one reads as 0.
pub fn read(op: u16, args: &[u32]) -> Option<Instruction<'_>>
    ensures { result ≡ spec.read op args.now }
{
    let form = form_of(op)?;
    Some(read_as(form, op, args))
}

/// The instruction of a form and its operand words.
pub fn read_as(form: Form, op: u16, args: &[u32]) -> Instruction<'_>
    ensures { result ≡ spec.read_as form op args.now }
{
    match form {
        Form::Name => Instruction::Name {
            target: arg(args, 0),
            text: from(args, 1),
        },
        Form::MemberName => Instruction::MemberName {
            target: arg(args, 0),
            member: arg(args, 1),
            text: from(args, 2),
        },
        Form::ExtInstImport => Instruction::ExtInstImport {
            result: arg(args, 0),
            name: from(args, 1),
        },
        Form::ExtInst => Instruction::ExtInst {
            type_: arg(args, 0),
            result: arg(args, 1),
            set: arg(args, 2),
            number: arg(args, 3),
            operands: from(args, 4),
        },
        Form::MemoryModel => Instruction::MemoryModel {
            addressing: arg(args, 0),
            memory: arg(args, 1),
        },
        Form::EntryPoint => Instruction::EntryPoint {
            model: arg(args, 0),
            function: arg(args, 1),
            name: text_words(args, 2),
            interface: after_text(args, 2),
        },
        Form::ExecutionMode => Instruction::ExecutionMode {
            function: arg(args, 0),
            mode: arg(args, 1),
            parts: from(args, 2),
        },
        Form::Capability => Instruction::Capability {
            capability: arg(args, 0),
        },
        Form::TypeVoid => Instruction::TypeVoid {
            result: arg(args, 0),
        },
        Form::TypeBool => Instruction::TypeBool {
            result: arg(args, 0),
        },
        Form::TypeInt => Instruction::TypeInt {
            result: arg(args, 0),
            width: arg(args, 1),
            signedness: arg(args, 2),
        },
        Form::TypeVector => Instruction::TypeVector {
            result: arg(args, 0),
            component: arg(args, 1),
            count: arg(args, 2),
        },
        Form::TypeArray => Instruction::TypeArray {
            result: arg(args, 0),
            element: arg(args, 1),
            length: arg(args, 2),
        },
        Form::TypeRuntimeArray => Instruction::TypeRuntimeArray {
            result: arg(args, 0),
            element: arg(args, 1),
        },
        Form::TypeStruct => Instruction::TypeStruct {
            result: arg(args, 0),
            members: from(args, 1),
        },
        Form::TypePointer => Instruction::TypePointer {
            result: arg(args, 0),
            class: arg(args, 1),
            pointee: arg(args, 2),
        },
        Form::TypeFunction => Instruction::TypeFunction {
            result: arg(args, 0),
            returned: arg(args, 1),
            parameters: from(args, 2),
        },
        Form::ConstantTrue => Instruction::ConstantTrue {
            type_: arg(args, 0),
            result: arg(args, 1),
        },
        Form::ConstantFalse => Instruction::ConstantFalse {
            type_: arg(args, 0),
            result: arg(args, 1),
        },
        Form::ConstantNull => Instruction::ConstantNull {
            type_: arg(args, 0),
            result: arg(args, 1),
        },
        Form::Constant => Instruction::Constant {
            type_: arg(args, 0),
            result: arg(args, 1),
            value: arg(args, 2),
        },
        Form::ConstantComposite => Instruction::ConstantComposite {
            type_: arg(args, 0),
            result: arg(args, 1),
            parts: from(args, 2),
        },
        Form::CompositeConstruct => Instruction::CompositeConstruct {
            type_: arg(args, 0),
            result: arg(args, 1),
            parts: from(args, 2),
        },
        Form::Function => Instruction::Function {
            type_: arg(args, 0),
            result: arg(args, 1),
            control: arg(args, 2),
            function_type: arg(args, 3),
        },
        Form::FunctionParameter => Instruction::FunctionParameter {
            type_: arg(args, 0),
            result: arg(args, 1),
        },
        Form::FunctionEnd => Instruction::FunctionEnd,
        Form::FunctionCall => Instruction::FunctionCall {
            type_: arg(args, 0),
            result: arg(args, 1),
            function: arg(args, 2),
            arguments: from(args, 3),
        },
        Form::Variable => Instruction::Variable {
            type_: arg(args, 0),
            result: arg(args, 1),
            class: arg(args, 2),
            initialiser: from(args, 3),
        },
        Form::Load => Instruction::Load {
            type_: arg(args, 0),
            result: arg(args, 1),
            pointer: arg(args, 2),
        },
        Form::Store => Instruction::Store {
            pointer: arg(args, 0),
            value: arg(args, 1),
        },
        Form::AccessChain => Instruction::AccessChain {
            type_: arg(args, 0),
            result: arg(args, 1),
            base: arg(args, 2),
            indexes: from(args, 3),
        },
        Form::ArrayLength => Instruction::ArrayLength {
            type_: arg(args, 0),
            result: arg(args, 1),
            pointer: arg(args, 2),
            member: arg(args, 3),
        },
        Form::Decorate => Instruction::Decorate {
            target: arg(args, 0),
            decoration: arg(args, 1),
            literals: from(args, 2),
        },
        Form::MemberDecorate => Instruction::MemberDecorate {
            target: arg(args, 0),
            member: arg(args, 1),
            decoration: arg(args, 2),
            literals: from(args, 3),
        },
        Form::VectorExtractDynamic => Instruction::VectorExtractDynamic {
            type_: arg(args, 0),
            result: arg(args, 1),
            vector: arg(args, 2),
            index: arg(args, 3),
        },
        Form::VectorShuffle => Instruction::VectorShuffle {
            type_: arg(args, 0),
            result: arg(args, 1),
            first: arg(args, 2),
            second: arg(args, 3),
            components: from(args, 4),
        },
        Form::CompositeExtract => Instruction::CompositeExtract {
            type_: arg(args, 0),
            result: arg(args, 1),
            composite: arg(args, 2),
            indexes: from(args, 3),
        },
        Form::CompositeInsert => Instruction::CompositeInsert {
            type_: arg(args, 0),
            result: arg(args, 1),
            part: arg(args, 2),
            composite: arg(args, 3),
            indexes: from(args, 4),
        },
        Form::Unary => Instruction::Unary {
            op,
            type_: arg(args, 0),
            result: arg(args, 1),
            a: arg(args, 2),
        },
        Form::Arithmetic => Instruction::Arithmetic {
            op,
            type_: arg(args, 0),
            result: arg(args, 1),
            a: arg(args, 2),
            b: arg(args, 3),
        },
        Form::Shift => Instruction::Shift {
            op,
            type_: arg(args, 0),
            result: arg(args, 1),
            base: arg(args, 2),
            shift: arg(args, 3),
        },
        Form::Logical => Instruction::Logical {
            op,
            type_: arg(args, 0),
            result: arg(args, 1),
            a: arg(args, 2),
            b: arg(args, 3),
        },
        Form::Comparison => Instruction::Comparison {
            op,
            type_: arg(args, 0),
            result: arg(args, 1),
            a: arg(args, 2),
            b: arg(args, 3),
        },
        Form::Select => Instruction::Select {
            type_: arg(args, 0),
            result: arg(args, 1),
            condition: arg(args, 2),
            a: arg(args, 3),
            b: arg(args, 4),
        },
        Form::BitFieldInsert => Instruction::BitFieldInsert {
            type_: arg(args, 0),
            result: arg(args, 1),
            base: arg(args, 2),
            insert: arg(args, 3),
            offset: arg(args, 4),
            count: arg(args, 5),
        },
        Form::BitFieldExtract => Instruction::BitFieldExtract {
            op,
            type_: arg(args, 0),
            result: arg(args, 1),
            base: arg(args, 2),
            offset: arg(args, 3),
            count: arg(args, 4),
        },
        Form::LoopMerge => Instruction::LoopMerge {
            merge: arg(args, 0),
            continue_target: arg(args, 1),
            control: arg(args, 2),
        },
        Form::SelectionMerge => Instruction::SelectionMerge {
            merge: arg(args, 0),
            control: arg(args, 1),
        },
        Form::Label => Instruction::Label {
            result: arg(args, 0),
        },
        Form::Branch => Instruction::Branch {
            target: arg(args, 0),
        },
        Form::BranchConditional => Instruction::BranchConditional {
            condition: arg(args, 0),
            on_true: arg(args, 1),
            on_false: arg(args, 2),
        },
        Form::Switch => Instruction::Switch {
            selector: arg(args, 0),
            default: arg(args, 1),
            targets: from(args, 2),
        },
        Form::Kill => Instruction::Kill,
        Form::Return => Instruction::Return,
        Form::ReturnValue => Instruction::ReturnValue {
            value: arg(args, 0),
        },
    }
}
