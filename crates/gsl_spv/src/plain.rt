//! Types and constants of few operands.

/// A type that is declared once (SPIR-V 1.0, 3.32.6).
#[derive(Clone, Copy, Debug, PartialEq, Eq)]
pub enum PlainType {
    Void,
    Bool,
    /// Of 32 bits, and whether it has a sign.
    Int(bool),
    /// The type of its components and how many they are.
    Vector(u32, u32),
    /// The storage class and the type that it points to.
    Pointer(u32, u32),
}

/// A constant without parts (SPIR-V 1.0, 3.32.7).
#[derive(Clone, Copy, Debug, PartialEq, Eq)]
pub enum PlainConst {
    True,
    False,
    /// The type and the word of a number.
    Word(u32, u32),
    /// The zero of a type.
    Null(u32),
}
