//! Declarations (GLSL 4.50, 4).

use crate::expr::{Dim, Dims, Expr, TypeSpec};
use gsl_base::{List, Place, Text};

/// A declared name, or a name that needs no more.
#[derive(Drop)]
pub struct Name {
    pub place: Place,
    pub text: Text,
}

/// A qualifier, with the place of its keyword (GLSL 4.50, 4.3 to 4.10).
#[derive(Drop)]
pub enum Qual {
    Const(Place),
    In(Place),
    Out(Place),
    Inout(Place),
    Uniform(Place),
    Buffer(Place),
    Flat(Place),
    Coherent(Place),
    Volatile(Place),
    Restrict(Place),
    Readonly(Place),
    Writeonly(Place),
    /// `layout ( .. )`
    Layout(Place, List<Lay>),
}

/// Qualifiers in their order.
pub type Quals = List<Qual>;

/// One item of a layout qualifier: `NAME` or `NAME = a`.
#[derive(Drop)]
pub enum Lay {
    Flag(Name),
    Value(Name, Expr),
}

/// Items of a layout qualifier in their order.
pub type Lays = List<Lay>;

/// A name with its brackets.
#[derive(Drop)]
pub struct Declared {
    pub name: Name,
    pub dims: List<Dim>,
}

/// What a variable begins as.
#[derive(Drop)]
pub enum Init {
    Expr(Expr),
    /// `{ .. }`, with the place of its `{`
    Braces(Place, List<Init>),
}

/// One variable of a declaration.
#[derive(Drop)]
pub enum Declarator {
    /// `NAME dims`
    Plain(Name, Dims),
    /// `NAME dims = init`
    Initialised(Name, Dims, Init),
}

/// Members of one type in a struct.
#[derive(Drop)]
pub struct StructMember {
    pub ty: TypeSpec,
    pub names: List<Declared>,
}

/// `struct NAME { .. }`, with the place of `struct`.
#[derive(Drop)]
pub struct Struct {
    pub place: Place,
    pub name: Name,
    pub members: List<StructMember>,
}

/// Members of one type in a block.
#[derive(Drop)]
pub struct Member {
    pub quals: Quals,
    pub ty: TypeSpec,
    pub names: List<Declared>,
}

/// A declaration.
#[derive(Drop)]
pub enum Decl {
    /// `quals type a, b = 1;`
    Variables(Quals, TypeSpec, List<Declarator>),
    /// `quals struct NAME { .. } a, b;`
    Struct(Quals, Struct, List<Declarator>),
    /// `quals NAME { .. } NAME;`, the last name being that of the instance
    Block(Quals, Name, List<Member>, Option<Name>),
    /// `quals;`
    Quals(Quals),
}
