//! What operands are.

/// The enumerations that operands name (SPIR-V 1.0, 3.3 to 3.31).
#[derive(Clone, Copy, Debug)]
pub enum Enumeration {
    Capability,
    Addressing,
    Memory,
    Model,
    Mode,
    Class,
    Decoration,
    BuiltIn,
}

/// What an operand is. A text fills as many words as it needs, each other operand one.
#[derive(Clone, Copy, Debug)]
pub enum Slot {
    /// The id that the instruction defines.
    Result,
    /// An id that is defined before.
    Id,
    /// An id that may be defined later: what a name, a decoration or an entry point speaks of, a callee,
    /// a label.
    Forward,
    /// A number.
    Number,
    /// An enumerant.
    Named(Enumeration),
    /// What stands behind a decoration: an enumerant of the built-in variables, or a number.
    OfDecoration,
    /// A text.
    Text,
}

/// What may follow the operands that every instruction of a form has.
#[derive(Clone, Copy, Debug)]
pub enum Rest {
    Nothing,
    /// One more, or none.
    Maybe(Slot),
    /// From the first to the second count of them.
    Many(Slot, u16, u16),
    /// This many or more.
    Any(Slot, u16),
    /// Three numbers, or none.
    NoneOrThree,
    /// Any number of pairs of a number and an id that may be defined later.
    Pairs,
}
