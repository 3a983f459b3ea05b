//! What an instruction is to its module.

/// What a type is made of (SPIR-V 1.0, 3.32.6).
#[derive(Clone, Copy)]
pub enum Shape<'a> {
    Void,
    Bool,
    Int {
        signedness: u32,
    },
    Vector {
        component: u32,
        count: u32,
    },
    /// `length` is the id of a constant.
    Array {
        element: u32,
        length: u32,
    },
    RuntimeArray {
        element: u32,
    },
    Struct {
        id: u32,
        members: &'a [u32],
    },
    Pointer {
        class: u32,
        pointee: u32,
    },
    Function {
        returned: u32,
        parameters: &'a [u32],
    },
    /// Of what is no type.
    NoType,
}

/// What a constant is (SPIR-V 1.0, 3.32.7).
#[derive(Clone, Copy)]
pub enum Value<'a> {
    Truth,
    Word(u32),
    Parts(&'a [u32]),
    /// Zeros of any type.
    Zeros,
}

/// A variable, with the id of its initialiser, if it has one.
#[derive(Clone, Copy)]
pub struct Variable<'a> {
    pub type_: u32,
    pub id: u32,
    pub class: u32,
    pub initialiser: &'a [u32],
}

/// What a decoration stands on.
#[derive(Clone, Copy)]
pub enum Place {
    On { target: u32 },
    OnMember { target: u32, member: u32 },
}

/// A decoration with the place that it stands on.
#[derive(Clone, Copy)]
pub struct Decoration<'a> {
    pub place: Place,
    pub kind: u32,
    pub literals: &'a [u32],
}

/// What an instruction is to its module.
#[derive(Clone, Copy)]
pub enum Kind<'a> {
    /// A capability.
    Asks,
    Imports,
    /// The memory model.
    Sets,
    Enters {
        model: u32,
        function: u32,
        name: &'a [u32],
        interface: &'a [u32],
    },
    Modes {
        function: u32,
        mode: u32,
        parts: &'a [u32],
    },
    /// A name.
    Debugs,
    Decorates(Decoration<'a>),
    Declares(Shape<'a>),
    Fixes {
        type_: u32,
        value: Value<'a>,
    },
    Holds(Variable<'a>),
    /// The first instruction of a function.
    Begins {
        type_: u32,
        id: u32,
        function_type: u32,
    },
    /// A parameter.
    Takes {
        type_: u32,
    },
    Calls {
        type_: u32,
        function: u32,
        arguments: &'a [u32],
    },
    /// Any other instruction of a block that gives a value.
    Gives {
        type_: u32,
    },
    /// One that gives none.
    Does,
    /// A label.
    Opens,
    Merges,
    /// The last instruction of a block.
    Leaves,
    /// The last instruction of a function.
    Ended,
    /// No instruction of the table.
    Absent,
}
