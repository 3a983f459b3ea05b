//! The built-in functions.

/// The built-in functions on integers and booleans (GLSL 4.50, 8.3, 8.7 and 8.8).
#[derive(Clone, Copy, Debug, PartialEq, Eq)]
pub enum Builtin {
    /// `abs`
    Abs,
    /// `sign`
    Sign,
    /// `min`
    Min,
    /// `max`
    Max,
    /// `clamp`
    Clamp,
    /// `mix` with a selector of `bool`
    Mix,
    /// `lessThan`
    LessThan,
    /// `lessThanEqual`
    LessThanEqual,
    /// `greaterThan`
    GreaterThan,
    /// `greaterThanEqual`
    GreaterThanEqual,
    /// `equal`
    Equal,
    /// `notEqual`
    NotEqual,
    /// `any`
    Any,
    /// `all`
    All,
    /// `not`
    Not,
    /// `bitCount`
    BitCount,
    /// `findLSB`
    FindLsb,
    /// `findMSB`
    FindMsb,
    /// `bitfieldReverse`
    BitfieldReverse,
    /// `bitfieldExtract`
    BitfieldExtract,
    /// `bitfieldInsert`
    BitfieldInsert,
}
