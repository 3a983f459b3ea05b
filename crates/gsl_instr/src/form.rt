//! The forms of instructions: one for each row of the instruction table (SPIR-V 1.0, 3.32).

ghost use Rattle.std.specs.Prelude.{◌≡◌, ◌≤◌, slice_index};
ghost use Rattle.gsl_instr.specs.declared.form.TheConstants.{ROWS};
ghost use Rattle.gsl_instr.specs.Forms as spec;

use crate::op;

/// A form of instructions: what their operands are, and what they are for.
#[derive(Clone, Copy, Debug)]
pub enum Form {
    Name,
    MemberName,
    ExtInstImport,
    ExtInst,
    MemoryModel,
    EntryPoint,
    ExecutionMode,
    Capability,
    TypeVoid,
    TypeBool,
    TypeInt,
    TypeVector,
    TypeArray,
    TypeRuntimeArray,
    TypeStruct,
    TypePointer,
    TypeFunction,
    ConstantTrue,
    ConstantFalse,
    ConstantNull,
    Constant,
    ConstantComposite,
    CompositeConstruct,
    Function,
    FunctionParameter,
    FunctionEnd,
    FunctionCall,
    Variable,
    Load,
    Store,
    AccessChain,
    ArrayLength,
    Decorate,
    MemberDecorate,
    VectorExtractDynamic,
    VectorShuffle,
    CompositeExtract,
    CompositeInsert,
    Unary,
    Arithmetic,
    Shift,
    Logical,
    Comparison,
    Select,
    BitFieldInsert,
    BitFieldExtract,
    LoopMerge,
    SelectionMerge,
    Label,
    Branch,
    BranchConditional,
    Switch,
    Kill,
    Return,
    ReturnValue,
}

/// A row of the table of opcodes.
#[derive(Clone, Copy, Debug)]
pub struct Row {
    pub op: u16,
    pub form: Form,
}

/// The opcodes of the profile and their forms.
pub const TABLE: [Row; 86] = [
    Row {
        op: op::NAME,
        form: Form::Name,
    },
    Row {
        op: op::MEMBER_NAME,
        form: Form::MemberName,
    },
    Row {
        op: op::EXT_INST_IMPORT,
        form: Form::ExtInstImport,
    },
    Row {
        op: op::EXT_INST,
        form: Form::ExtInst,
    },
    Row {
        op: op::MEMORY_MODEL,
        form: Form::MemoryModel,
    },
    Row {
        op: op::ENTRY_POINT,
        form: Form::EntryPoint,
    },
    Row {
        op: op::EXECUTION_MODE,
        form: Form::ExecutionMode,
    },
    Row {
        op: op::CAPABILITY,
        form: Form::Capability,
    },
    Row {
        op: op::TYPE_VOID,
        form: Form::TypeVoid,
    },
    Row {
        op: op::TYPE_BOOL,
        form: Form::TypeBool,
    },
    Row {
        op: op::TYPE_INT,
        form: Form::TypeInt,
    },
    Row {
        op: op::TYPE_VECTOR,
        form: Form::TypeVector,
    },
    Row {
        op: op::TYPE_ARRAY,
        form: Form::TypeArray,
    },
    Row {
        op: op::TYPE_RUNTIME_ARRAY,
        form: Form::TypeRuntimeArray,
    },
    Row {
        op: op::TYPE_STRUCT,
        form: Form::TypeStruct,
    },
    Row {
        op: op::TYPE_POINTER,
        form: Form::TypePointer,
    },
    Row {
        op: op::TYPE_FUNCTION,
        form: Form::TypeFunction,
    },
    Row {
        op: op::CONSTANT_TRUE,
        form: Form::ConstantTrue,
    },
    Row {
        op: op::CONSTANT_FALSE,
        form: Form::ConstantFalse,
    },
    Row {
        op: op::CONSTANT_NULL,
        form: Form::ConstantNull,
    },
    Row {
        op: op::CONSTANT,
        form: Form::Constant,
    },
    Row {
        op: op::CONSTANT_COMPOSITE,
        form: Form::ConstantComposite,
    },
    Row {
        op: op::COMPOSITE_CONSTRUCT,
        form: Form::CompositeConstruct,
    },
    Row {
        op: op::FUNCTION,
        form: Form::Function,
    },
    Row {
        op: op::FUNCTION_PARAMETER,
        form: Form::FunctionParameter,
    },
    Row {
        op: op::FUNCTION_END,
        form: Form::FunctionEnd,
    },
    Row {
        op: op::FUNCTION_CALL,
        form: Form::FunctionCall,
    },
    Row {
        op: op::VARIABLE,
        form: Form::Variable,
    },
    Row {
        op: op::LOAD,
        form: Form::Load,
    },
    Row {
        op: op::STORE,
        form: Form::Store,
    },
    Row {
        op: op::ACCESS_CHAIN,
        form: Form::AccessChain,
    },
    Row {
        op: op::ARRAY_LENGTH,
        form: Form::ArrayLength,
    },
    Row {
        op: op::DECORATE,
        form: Form::Decorate,
    },
    Row {
        op: op::MEMBER_DECORATE,
        form: Form::MemberDecorate,
    },
    Row {
        op: op::VECTOR_EXTRACT_DYNAMIC,
        form: Form::VectorExtractDynamic,
    },
    Row {
        op: op::VECTOR_SHUFFLE,
        form: Form::VectorShuffle,
    },
    Row {
        op: op::COMPOSITE_EXTRACT,
        form: Form::CompositeExtract,
    },
    Row {
        op: op::COMPOSITE_INSERT,
        form: Form::CompositeInsert,
    },
    Row {
        op: op::BITCAST,
        form: Form::Unary,
    },
    Row {
        op: op::S_NEGATE,
        form: Form::Unary,
    },
    Row {
        op: op::ANY,
        form: Form::Unary,
    },
    Row {
        op: op::ALL,
        form: Form::Unary,
    },
    Row {
        op: op::LOGICAL_NOT,
        form: Form::Unary,
    },
    Row {
        op: op::NOT,
        form: Form::Unary,
    },
    Row {
        op: op::BIT_REVERSE,
        form: Form::Unary,
    },
    Row {
        op: op::BIT_COUNT,
        form: Form::Unary,
    },
    Row {
        op: op::I_ADD,
        form: Form::Arithmetic,
    },
    Row {
        op: op::I_SUB,
        form: Form::Arithmetic,
    },
    Row {
        op: op::I_MUL,
        form: Form::Arithmetic,
    },
    Row {
        op: op::U_DIV,
        form: Form::Arithmetic,
    },
    Row {
        op: op::S_DIV,
        form: Form::Arithmetic,
    },
    Row {
        op: op::U_MOD,
        form: Form::Arithmetic,
    },
    Row {
        op: op::S_MOD,
        form: Form::Arithmetic,
    },
    Row {
        op: op::BITWISE_OR,
        form: Form::Arithmetic,
    },
    Row {
        op: op::BITWISE_XOR,
        form: Form::Arithmetic,
    },
    Row {
        op: op::BITWISE_AND,
        form: Form::Arithmetic,
    },
    Row {
        op: op::SHIFT_RIGHT_LOGICAL,
        form: Form::Shift,
    },
    Row {
        op: op::SHIFT_RIGHT_ARITHMETIC,
        form: Form::Shift,
    },
    Row {
        op: op::SHIFT_LEFT_LOGICAL,
        form: Form::Shift,
    },
    Row {
        op: op::LOGICAL_EQUAL,
        form: Form::Logical,
    },
    Row {
        op: op::LOGICAL_NOT_EQUAL,
        form: Form::Logical,
    },
    Row {
        op: op::LOGICAL_OR,
        form: Form::Logical,
    },
    Row {
        op: op::LOGICAL_AND,
        form: Form::Logical,
    },
    Row {
        op: op::I_EQUAL,
        form: Form::Comparison,
    },
    Row {
        op: op::I_NOT_EQUAL,
        form: Form::Comparison,
    },
    Row {
        op: op::U_GREATER_THAN,
        form: Form::Comparison,
    },
    Row {
        op: op::S_GREATER_THAN,
        form: Form::Comparison,
    },
    Row {
        op: op::U_GREATER_THAN_EQUAL,
        form: Form::Comparison,
    },
    Row {
        op: op::S_GREATER_THAN_EQUAL,
        form: Form::Comparison,
    },
    Row {
        op: op::U_LESS_THAN,
        form: Form::Comparison,
    },
    Row {
        op: op::S_LESS_THAN,
        form: Form::Comparison,
    },
    Row {
        op: op::U_LESS_THAN_EQUAL,
        form: Form::Comparison,
    },
    Row {
        op: op::S_LESS_THAN_EQUAL,
        form: Form::Comparison,
    },
    Row {
        op: op::SELECT,
        form: Form::Select,
    },
    Row {
        op: op::BIT_FIELD_INSERT,
        form: Form::BitFieldInsert,
    },
    Row {
        op: op::BIT_FIELD_S_EXTRACT,
        form: Form::BitFieldExtract,
    },
    Row {
        op: op::BIT_FIELD_U_EXTRACT,
        form: Form::BitFieldExtract,
    },
    Row {
        op: op::LOOP_MERGE,
        form: Form::LoopMerge,
    },
    Row {
        op: op::SELECTION_MERGE,
        form: Form::SelectionMerge,
    },
    Row {
        op: op::LABEL,
        form: Form::Label,
    },
    Row {
        op: op::BRANCH,
        form: Form::Branch,
    },
    Row {
        op: op::BRANCH_CONDITIONAL,
        form: Form::BranchConditional,
    },
    Row {
        op: op::SWITCH,
        form: Form::Switch,
    },
    Row {
        op: op::KILL,
        form: Form::Kill,
    },
    Row {
        op: op::RETURN,
        form: Form::Return,
    },
    Row {
        op: op::RETURN_VALUE,
        form: Form::ReturnValue,
    },
];

/// For each opcode below 256 its row in `TABLE`, counted from 1; 0 where it has none.
const ROWS: [u8; 256] = [
    0, 0, 0, 0, 0, 1, 2, 0, 0, 0, 0, 3, 4, 0, 5, 6, 7, 8, 0, 9, 10, 11, 0, 12, 0, 0, 0, 0, 13, 14,
    15, 0, 16, 17, 0, 0, 0, 0, 0, 0, 0, 18, 19, 21, 22, 0, 20, 0, 0, 0, 0, 0, 0, 0, 24, 25, 26, 27,
    0, 28, 0, 29, 30, 0, 0, 31, 0, 0, 32, 0, 0, 33, 34, 0, 0, 0, 0, 35, 0, 36, 23, 37, 38, 0, 0, 0,
    0, 0, 0, 0, 0, 0, 0, 0, 0, 0, 0, 0, 0, 0, 0, 0, 0, 0, 0, 0, 0, 0, 0, 0, 0, 0, 0, 0, 0, 0, 0, 0,
    0, 0, 0, 0, 0, 0, 39, 0, 40, 0, 47, 0, 48, 0, 49, 0, 50, 51, 0, 52, 0, 53, 0, 0, 0, 0, 0, 0, 0,
    0, 0, 0, 0, 0, 0, 0, 41, 42, 0, 0, 0, 0, 0, 0, 0, 0, 60, 61, 62, 63, 43, 74, 64, 65, 66, 67,
    68, 69, 70, 71, 72, 73, 0, 0, 0, 0, 0, 0, 0, 0, 0, 0, 0, 0, 0, 0, 57, 58, 59, 54, 55, 56, 44,
    75, 76, 77, 45, 46, 0, 0, 0, 0, 0, 0, 0, 0, 0, 0, 0, 0, 0, 0, 0, 0, 0, 0, 0, 0, 0, 0, 0, 0, 0,
    0, 0, 0, 0, 0, 0, 0, 0, 0, 0, 0, 0, 0, 0, 0, 78, 79, 80, 81, 82, 83, 84, 85, 86, 0,
];

/// The row of an opcode, counted from 1; 0 where it has none.
fn row_of(op: u16) -> usize
    ensures is { result ≡ slice_index ROWS op }
    ensures known { result ≤ 86 }
{
    if op < 256 {
        let rows = &ROWS;
        usize::from(rows[usize::from(op)])
    } else {
        0
    }
}

/// The form of an opcode, if it is one of the profile.
pub fn form_of(op: u16) -> Option<Form>
    ensures { result ≡ spec.form_of op }
{
    let row = row_of(op);
    if row == 0 {
        return None;
    }
    let rows = &TABLE;
    Some(rows[row - 1].form)
}
