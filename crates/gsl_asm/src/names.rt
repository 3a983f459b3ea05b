//! The names of opcodes and enumerants, as Khronos writes them.

ghost use Rattle.std.specs.Prelude.{◌≡◌, map};
ghost use Rattle.std.specs.Option.{option_map};
ghost use Rattle.gsl_asm.specs.Names as spec;

use gsl_instr::Enumeration;
use gsl_instr::enumerant::{
    built_in, capability, decoration, execution_mode, execution_model, memory_model, storage_class,
};
use gsl_words::Target;

/// The first half of the opcodes.
pub const OPCODES_A: [(&[u8], u16); 43] = [
    (b"OpName", 5),
    (b"OpMemberName", 6),
    (b"OpExtInstImport", 11),
    (b"OpExtInst", 12),
    (b"OpMemoryModel", 14),
    (b"OpEntryPoint", 15),
    (b"OpExecutionMode", 16),
    (b"OpCapability", 17),
    (b"OpTypeVoid", 19),
    (b"OpTypeBool", 20),
    (b"OpTypeInt", 21),
    (b"OpTypeVector", 23),
    (b"OpTypeArray", 28),
    (b"OpTypeRuntimeArray", 29),
    (b"OpTypeStruct", 30),
    (b"OpTypePointer", 32),
    (b"OpTypeFunction", 33),
    (b"OpConstantTrue", 41),
    (b"OpConstantFalse", 42),
    (b"OpConstantNull", 46),
    (b"OpConstant", 43),
    (b"OpConstantComposite", 44),
    (b"OpCompositeConstruct", 80),
    (b"OpFunction", 54),
    (b"OpFunctionParameter", 55),
    (b"OpFunctionEnd", 56),
    (b"OpFunctionCall", 57),
    (b"OpVariable", 59),
    (b"OpLoad", 61),
    (b"OpStore", 62),
    (b"OpAccessChain", 65),
    (b"OpArrayLength", 68),
    (b"OpDecorate", 71),
    (b"OpMemberDecorate", 72),
    (b"OpVectorExtractDynamic", 77),
    (b"OpVectorShuffle", 79),
    (b"OpCompositeExtract", 81),
    (b"OpCompositeInsert", 82),
    (b"OpBitcast", 124),
    (b"OpSNegate", 126),
    (b"OpAny", 154),
    (b"OpAll", 155),
    (b"OpLogicalNot", 168),
];

/// The other half of the opcodes.
pub const OPCODES_B: [(&[u8], u16); 43] = [
    (b"OpNot", 200),
    (b"OpBitReverse", 204),
    (b"OpBitCount", 205),
    (b"OpIAdd", 128),
    (b"OpISub", 130),
    (b"OpIMul", 132),
    (b"OpUDiv", 134),
    (b"OpSDiv", 135),
    (b"OpUMod", 137),
    (b"OpSMod", 139),
    (b"OpBitwiseOr", 197),
    (b"OpBitwiseXor", 198),
    (b"OpBitwiseAnd", 199),
    (b"OpShiftRightLogical", 194),
    (b"OpShiftRightArithmetic", 195),
    (b"OpShiftLeftLogical", 196),
    (b"OpLogicalEqual", 164),
    (b"OpLogicalNotEqual", 165),
    (b"OpLogicalOr", 166),
    (b"OpLogicalAnd", 167),
    (b"OpIEqual", 170),
    (b"OpINotEqual", 171),
    (b"OpUGreaterThan", 172),
    (b"OpSGreaterThan", 173),
    (b"OpUGreaterThanEqual", 174),
    (b"OpSGreaterThanEqual", 175),
    (b"OpULessThan", 176),
    (b"OpSLessThan", 177),
    (b"OpULessThanEqual", 178),
    (b"OpSLessThanEqual", 179),
    (b"OpSelect", 169),
    (b"OpBitFieldInsert", 201),
    (b"OpBitFieldSExtract", 202),
    (b"OpBitFieldUExtract", 203),
    (b"OpLoopMerge", 246),
    (b"OpSelectionMerge", 247),
    (b"OpLabel", 248),
    (b"OpBranch", 249),
    (b"OpBranchConditional", 250),
    (b"OpSwitch", 251),
    (b"OpKill", 252),
    (b"OpReturn", 253),
    (b"OpReturnValue", 254),
];

pub const CAPABILITIES: [(&[u8], u32); 1] = [(b"Shader", capability::SHADER)];

pub const ADDRESSINGS: [(&[u8], u32); 1] = [(b"Logical", memory_model::LOGICAL)];

pub const MEMORIES: [(&[u8], u32); 1] = [(b"GLSL450", memory_model::GLSL450)];

pub const MODELS: [(&[u8], u32); 3] = [
    (b"Vertex", execution_model::VERTEX),
    (b"Fragment", execution_model::FRAGMENT),
    (b"GLCompute", execution_model::GL_COMPUTE),
];

pub const MODES: [(&[u8], u32); 2] = [
    (b"OriginUpperLeft", execution_mode::ORIGIN_UPPER_LEFT),
    (b"LocalSize", execution_mode::LOCAL_SIZE),
];

pub const CLASSES: [(&[u8], u32); 6] = [
    (b"Input", storage_class::INPUT),
    (b"Uniform", storage_class::UNIFORM),
    (b"Output", storage_class::OUTPUT),
    (b"Private", storage_class::PRIVATE),
    (b"Function", storage_class::FUNCTION),
    (b"PushConstant", storage_class::PUSH_CONSTANT),
];

pub const CLASSES_1_3: [(&[u8], u32); 7] = [
    (b"Input", storage_class::INPUT),
    (b"Uniform", storage_class::UNIFORM),
    (b"Output", storage_class::OUTPUT),
    (b"Private", storage_class::PRIVATE),
    (b"Function", storage_class::FUNCTION),
    (b"PushConstant", storage_class::PUSH_CONSTANT),
    (b"StorageBuffer", storage_class::STORAGE_BUFFER),
];

pub const DECORATIONS: [(&[u8], u32); 13] = [
    (b"Block", decoration::BLOCK),
    (b"BufferBlock", decoration::BUFFER_BLOCK),
    (b"ArrayStride", decoration::ARRAY_STRIDE),
    (b"BuiltIn", decoration::BUILT_IN),
    (b"Flat", decoration::FLAT),
    (b"Volatile", decoration::VOLATILE),
    (b"Coherent", decoration::COHERENT),
    (b"NonWritable", decoration::NON_WRITABLE),
    (b"NonReadable", decoration::NON_READABLE),
    (b"Location", decoration::LOCATION),
    (b"Binding", decoration::BINDING),
    (b"DescriptorSet", decoration::DESCRIPTOR_SET),
    (b"Offset", decoration::OFFSET),
];

pub const BUILT_INS: [(&[u8], u32); 7] = [
    (b"NumWorkgroups", built_in::NUM_WORKGROUPS),
    (b"WorkgroupId", built_in::WORKGROUP_ID),
    (b"LocalInvocationId", built_in::LOCAL_INVOCATION_ID),
    (b"GlobalInvocationId", built_in::GLOBAL_INVOCATION_ID),
    (b"LocalInvocationIndex", built_in::LOCAL_INVOCATION_INDEX),
    (b"VertexIndex", built_in::VERTEX_INDEX),
    (b"InstanceIndex", built_in::INSTANCE_INDEX),
];

/// The number of an enumerant's name, by the version of the module.
#[tactic(auto, unfolding(crate::specs::Names::number_of))]
pub fn number_of(target: Target, enumeration: Enumeration, name: &[u8]) -> Option<u32>
    ensures { result ≡ spec.number_of target enumeration name.now }
{
    lookup(table_of(target, enumeration), name)
}

/// The name of an enumerant, if its number has one.
#[tactic(auto, unfolding(crate::specs::Names::name_of))]
pub fn name_of(target: Target, enumeration: Enumeration, number: u32) -> Option<&'static [u8]>
    ensures { option_map (λ name. name.now) result ≡ spec.name_of target enumeration number }
{
    name_in(table_of(target, enumeration), number)
}

/// The opcode of a name.
#[tactic(auto, unfolding(crate::specs::Names::opcode_of))]
pub fn opcode_of(name: &[u8]) -> Option<u16>
    ensures { result ≡ spec.opcode_of name.now }
{
    match lookup(&OPCODES_A, name) {
        Some(op) => Some(op),
        None => lookup(&OPCODES_B, name),
    }
}

/// The name of an opcode.
#[tactic(auto, unfolding(crate::specs::Names::opcode_name))]
pub fn opcode_name(op: u16) -> Option<&'static [u8]>
    ensures { option_map (λ name. name.now) result ≡ spec.opcode_name op }
{
    match opcode_name_in(&OPCODES_A, op) {
        Some(name) => Some(name),
        None => opcode_name_in(&OPCODES_B, op),
    }
}

/// The names of an enumeration, by the version of the module.
fn table_of(target: Target, enumeration: Enumeration) -> &'static [(&'static [u8], u32)]
    ensures { map (λ row. (row.0.now, row.1)) result.now ≡ spec.table_of target enumeration }
{
    match enumeration {
        Enumeration::Capability => &CAPABILITIES,
        Enumeration::Addressing => &ADDRESSINGS,
        Enumeration::Memory => &MEMORIES,
        Enumeration::Model => &MODELS,
        Enumeration::Mode => &MODES,
        Enumeration::Class => match target {
            Target::V10 => &CLASSES,
            Target::V13 => &CLASSES_1_3,
        },
        Enumeration::Decoration => &DECORATIONS,
        Enumeration::BuiltIn => &BUILT_INS,
    }
}

/// What the first row says that has the name.
fn lookup<T: Copy>(mut rows: &[(&[u8], T)], name: &[u8]) -> Option<T>
    ensures { result ≡ spec.lookup (map (λ row. (row.0.now, row.1)) rows.entry.now) name.now }
{
    while let [row, more @ ..] = rows {
        if row.0 == name {
            return Some(row.1);
        }
        rows = more;
    }
    None
}

/// The name in the first row that has the number.
fn name_in(mut rows: &[(&'static [u8], u32)], number: u32) -> Option<&'static [u8]>
    ensures { option_map (λ name. name.now) result ≡ spec.name_in (map (λ row. (row.0.now, row.1)) rows.entry.now) number }
{
    while let [row, more @ ..] = rows {
        if row.1 == number {
            return Some(row.0);
        }
        rows = more;
    }
    None
}

/// The name in the first row that has the opcode.
fn opcode_name_in(mut rows: &[(&'static [u8], u16)], op: u16) -> Option<&'static [u8]>
    ensures { option_map (λ name. name.now) result ≡ spec.name_in (map (λ row. (row.0.now, row.1)) rows.entry.now) op }
{
    while let [row, more @ ..] = rows {
        if row.1 == op {
            return Some(row.0);
        }
        rows = more;
    }
    None
}
