//! A typed unit, and what it declares.

use crate::expr::Expr;
use crate::stmt::Stmts;
use gsl_base::{List, Place, Text};
use gsl_types::{Direction, Structs, Ty, Types};
use gsl_values::Value;

/// A global variable.
#[derive(Drop)]
pub struct GlobalVar {
    pub name: Text,
    pub ty: Ty,
    /// Whether it is `const`.
    pub constant: bool,
    pub init: Option<Expr>,
    /// The value of the initialiser.
    pub value: Option<Value>,
    pub place: Place,
}

/// What a block is for (GLSL 4.50, 4.3.9; GL_KHR_vulkan_glsl).
#[derive(Clone, Copy, Debug, PartialEq, Eq)]
pub enum BlockKind {
    Uniform,
    Buffer,
    Push,
}

/// A block.
#[derive(Drop)]
pub struct Block {
    pub name: Text,
    pub instance: Option<Text>,
    pub kind: BlockKind,
    pub set: u32,
    pub binding: u32,
    pub std140: bool,
    pub members: BlockMembers,
    /// How many bytes a buffer must have: up to the end of the last leaf, or to the runtime array.
    pub need: u32,
    pub place: Place,
}

/// A member of a block.
#[derive(Drop)]
pub struct BlockMember {
    pub name: Text,
    pub ty: Ty,
    pub readonly: bool,
    pub writeonly: bool,
    pub coherent: bool,
    pub volatile: bool,
    pub restrict: bool,
    /// The value of its `offset`, if it is stated.
    pub offset: Option<u32>,
    /// The value of its `align`, if it is stated.
    pub align: Option<u32>,
    pub place: Place,
}

/// An input or an output.
#[derive(Drop)]
pub struct Interface {
    pub name: Text,
    pub ty: Ty,
    pub output: bool,
    pub flat: bool,
    pub location: u32,
    pub place: Place,
}

/// The parameters of a function in their order.
pub type Params = List<(Direction, Ty)>;

/// The head of a function.
#[derive(Drop)]
pub struct Prototype {
    pub name: Text,
    pub result: Ty,
    pub params: Params,
    pub place: Place,
}

/// A function with its body.
#[derive(Drop)]
pub struct Function {
    /// The number of its head.
    pub prototype: u32,
    /// The types of its local variables, by their numbers.
    pub locals: Types,
    pub body: Stmts,
    pub place: Place,
}

/// A declaration of the size of a work group.
#[derive(Debug, Drop)]
pub struct LocalSize {
    pub parts: [u32; 3],
    pub place: Place,
}

pub type Globals = List<GlobalVar>;

pub type Blocks = List<Block>;

pub type BlockMembers = List<BlockMember>;

pub type Interfaces = List<Interface>;

pub type Prototypes = List<Prototype>;

pub type Functions = List<Function>;

pub type LocalSizes = List<LocalSize>;

/// What a unit declares, list by list in the order of the source.
#[derive(Drop)]
pub struct TypedUnit {
    pub structs: Structs,
    pub globals: Globals,
    pub blocks: Blocks,
    pub interfaces: Interfaces,
    pub prototypes: Prototypes,
    pub functions: Functions,
    pub local_sizes: LocalSizes,
}

/// Units in their order.
pub type TypedUnits = List<TypedUnit>;
