//! The enumerants of the profile, by the names that Khronos gives them (SPIR-V 1.0, 3.4 to 3.31).

/// The capability that every module declares.
pub mod capability {
    pub const SHADER: u32 = 1;
}

/// Addressing and memory model.
pub mod memory_model {
    pub const LOGICAL: u32 = 0;

    pub const GLSL450: u32 = 1;
}

/// The stage of an entry point.
pub mod execution_model {
    pub const VERTEX: u32 = 0;

    pub const FRAGMENT: u32 = 4;

    pub const GL_COMPUTE: u32 = 5;
}

pub mod execution_mode {
    pub const ORIGIN_UPPER_LEFT: u32 = 7;

    pub const LOCAL_SIZE: u32 = 17;
}

pub mod storage_class {
    pub const INPUT: u32 = 1;

    pub const UNIFORM: u32 = 2;

    pub const OUTPUT: u32 = 3;

    pub const PRIVATE: u32 = 6;

    pub const FUNCTION: u32 = 7;

    pub const PUSH_CONSTANT: u32 = 9;

    /// From version 1.3 on.
    pub const STORAGE_BUFFER: u32 = 12;
}

pub mod decoration {
    pub const BLOCK: u32 = 2;

    pub const BUFFER_BLOCK: u32 = 3;

    pub const ARRAY_STRIDE: u32 = 6;

    pub const BUILT_IN: u32 = 11;

    pub const FLAT: u32 = 14;

    pub const VOLATILE: u32 = 21;

    pub const COHERENT: u32 = 23;

    pub const NON_WRITABLE: u32 = 24;

    pub const NON_READABLE: u32 = 25;

    pub const LOCATION: u32 = 30;

    pub const BINDING: u32 = 33;

    pub const DESCRIPTOR_SET: u32 = 34;

    pub const OFFSET: u32 = 35;
}

pub mod built_in {
    pub const NUM_WORKGROUPS: u32 = 24;

    pub const WORKGROUP_ID: u32 = 26;

    pub const LOCAL_INVOCATION_ID: u32 = 27;

    pub const GLOBAL_INVOCATION_ID: u32 = 28;

    pub const LOCAL_INVOCATION_INDEX: u32 = 29;

    pub const VERTEX_INDEX: u32 = 42;

    pub const INSTANCE_INDEX: u32 = 43;
}

/// The instructions of the set `GLSL.std.450` (Extended Instructions for GLSL, 2).
pub mod glsl_std_450 {
    pub const S_ABS: u32 = 5;

    pub const S_SIGN: u32 = 7;

    pub const U_MIN: u32 = 38;

    pub const S_MIN: u32 = 39;

    pub const U_MAX: u32 = 41;

    pub const S_MAX: u32 = 42;

    pub const U_CLAMP: u32 = 44;

    pub const S_CLAMP: u32 = 45;

    pub const FIND_I_LSB: u32 = 73;

    pub const FIND_S_MSB: u32 = 74;

    pub const FIND_U_MSB: u32 = 75;
}
