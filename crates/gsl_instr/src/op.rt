//! The opcodes of the profile, by the names that Khronos gives them (SPIR-V 1.0, 3.32).

pub const NAME: u16 = 5;

pub const MEMBER_NAME: u16 = 6;

pub const EXT_INST_IMPORT: u16 = 11;

pub const EXT_INST: u16 = 12;

pub const MEMORY_MODEL: u16 = 14;

pub const ENTRY_POINT: u16 = 15;

pub const EXECUTION_MODE: u16 = 16;

pub const CAPABILITY: u16 = 17;

pub const TYPE_VOID: u16 = 19;

pub const TYPE_BOOL: u16 = 20;

pub const TYPE_INT: u16 = 21;

pub const TYPE_VECTOR: u16 = 23;

pub const TYPE_ARRAY: u16 = 28;

pub const TYPE_RUNTIME_ARRAY: u16 = 29;

pub const TYPE_STRUCT: u16 = 30;

pub const TYPE_POINTER: u16 = 32;

pub const TYPE_FUNCTION: u16 = 33;

pub const CONSTANT_TRUE: u16 = 41;

pub const CONSTANT_FALSE: u16 = 42;

pub const CONSTANT: u16 = 43;

pub const CONSTANT_COMPOSITE: u16 = 44;

pub const CONSTANT_NULL: u16 = 46;

pub const FUNCTION: u16 = 54;

pub const FUNCTION_PARAMETER: u16 = 55;

pub const FUNCTION_END: u16 = 56;

pub const FUNCTION_CALL: u16 = 57;

pub const VARIABLE: u16 = 59;

pub const LOAD: u16 = 61;

pub const STORE: u16 = 62;

pub const ACCESS_CHAIN: u16 = 65;

pub const ARRAY_LENGTH: u16 = 68;

pub const DECORATE: u16 = 71;

pub const MEMBER_DECORATE: u16 = 72;

pub const VECTOR_EXTRACT_DYNAMIC: u16 = 77;

pub const VECTOR_SHUFFLE: u16 = 79;

pub const COMPOSITE_CONSTRUCT: u16 = 80;

pub const COMPOSITE_EXTRACT: u16 = 81;

pub const COMPOSITE_INSERT: u16 = 82;

pub const BITCAST: u16 = 124;

pub const S_NEGATE: u16 = 126;

pub const I_ADD: u16 = 128;

pub const I_SUB: u16 = 130;

pub const I_MUL: u16 = 132;

pub const U_DIV: u16 = 134;

pub const S_DIV: u16 = 135;

pub const U_MOD: u16 = 137;

pub const S_MOD: u16 = 139;

pub const ANY: u16 = 154;

pub const ALL: u16 = 155;

pub const LOGICAL_EQUAL: u16 = 164;

pub const LOGICAL_NOT_EQUAL: u16 = 165;

pub const LOGICAL_OR: u16 = 166;

pub const LOGICAL_AND: u16 = 167;

pub const LOGICAL_NOT: u16 = 168;

pub const SELECT: u16 = 169;

pub const I_EQUAL: u16 = 170;

pub const I_NOT_EQUAL: u16 = 171;

pub const U_GREATER_THAN: u16 = 172;

pub const S_GREATER_THAN: u16 = 173;

pub const U_GREATER_THAN_EQUAL: u16 = 174;

pub const S_GREATER_THAN_EQUAL: u16 = 175;

pub const U_LESS_THAN: u16 = 176;

pub const S_LESS_THAN: u16 = 177;

pub const U_LESS_THAN_EQUAL: u16 = 178;

pub const S_LESS_THAN_EQUAL: u16 = 179;

pub const SHIFT_RIGHT_LOGICAL: u16 = 194;

pub const SHIFT_RIGHT_ARITHMETIC: u16 = 195;

pub const SHIFT_LEFT_LOGICAL: u16 = 196;

pub const BITWISE_OR: u16 = 197;

pub const BITWISE_XOR: u16 = 198;

pub const BITWISE_AND: u16 = 199;

pub const NOT: u16 = 200;

pub const BIT_FIELD_INSERT: u16 = 201;

pub const BIT_FIELD_S_EXTRACT: u16 = 202;

pub const BIT_FIELD_U_EXTRACT: u16 = 203;

pub const BIT_REVERSE: u16 = 204;

pub const BIT_COUNT: u16 = 205;

pub const LOOP_MERGE: u16 = 246;

pub const SELECTION_MERGE: u16 = 247;

pub const LABEL: u16 = 248;

pub const BRANCH: u16 = 249;

pub const BRANCH_CONDITIONAL: u16 = 250;

pub const SWITCH: u16 = 251;

pub const KILL: u16 = 252;

pub const RETURN: u16 = 253;

pub const RETURN_VALUE: u16 = 254;
