//! What qualifiers say of a declaration.

use gsl_base::Place;

/// What is declared, as far as the form of the declaration and its first storage qualifier tell.
#[derive(Clone, Copy, Debug, PartialEq, Eq)]
pub enum Role {
    /// Global variables, `const` ones too.
    Variable,
    Input,
    Output,
    /// A uniform block.
    Uniform,
    /// A buffer block.
    Buffer,
    /// A push constant block.
    Push,
    /// A member of a block, and whether that is a buffer block.
    Member(bool),
    /// The size of the work group.
    Size,
    /// What no qualifier serves, as a function.
    Nothing,
}

/// What the qualifiers of a declaration say, of a layout name its last value.
#[derive(Debug, Drop)]
pub struct Qualified {
    /// Whether a storage qualifier stands among them.
    pub stored: bool,
    /// Whether it is `const`.
    pub fixed: bool,
    pub flat: bool,
    pub coherent: bool,
    pub volatile: bool,
    pub restrict: bool,
    pub readonly: bool,
    pub writeonly: bool,
    /// Whether `std140` was the last of `std140` and `std430`.
    pub std140: Option<bool>,
    pub location: Option<u32>,
    pub set: Option<u32>,
    pub binding: Option<u32>,
    /// The value of `offset`, with the place of its name.
    pub offset: Option<(Place, u32)>,
    pub align: Option<u32>,
    pub size_x: Option<u32>,
    pub size_y: Option<u32>,
    pub size_z: Option<u32>,
    /// The place of `in`, where it stands among them.
    pub within: Option<Place>,
}
