//! Expressions and types (GLSL 4.50, 5 and 4.1). The place of each is that of its head token: an
//! operator's own token, `[`, `.`, the first token of a callee or a type, a name, a literal, `(`.

use crate::operator::{AssignOp, BinaryOp, PostfixOp, UnaryOp};
use gsl_base::{Boxed, List, Place, Text};

/// An expression.
#[cycle(expression)]
#[derive(Drop)]
pub enum Expr {
    /// `NAME`
    Name(Place, Text),
    /// A literal without suffix, as the word of its bits.
    Signed(Place, u32),
    /// A literal with the suffix `u` or `U`.
    Unsigned(Place, u32),
    /// `true` or `false`
    Bool(Place, bool),
    /// `( a )`
    Paren(Place, Boxed<Expr>),
    /// `type ( void )`, with the place that the type has
    CallVoid(Boxed<TypeSpec>),
    /// `type ( a, .. )`, a call of a function or a constructor, with the place that the type has
    Call(Boxed<TypeSpec>, List<Expr>),
    /// `a [ b ]`
    Index(Place, Boxed<Expr>, Boxed<Expr>),
    /// `a . NAME`
    Member(Place, Boxed<Expr>, Text),
    /// `a . NAME ( )`
    Method(Place, Boxed<Expr>, Text),
    /// `a ++`
    Postfix(Place, PostfixOp, Boxed<Expr>),
    /// `- a`
    Unary(Place, UnaryOp, Boxed<Expr>),
    /// `a + b`
    Binary(Place, BinaryOp, Boxed<Expr>, Boxed<Expr>),
    /// `a ? b : c`
    Conditional(Place, Boxed<Expr>, Boxed<Expr>, Boxed<Expr>),
    /// `a = b`
    Assign(Place, AssignOp, Boxed<Expr>, Boxed<Expr>),
    /// `a , b , ..`: the first, and those that follow, with the place of the comma before each
    Sequence(Boxed<Expr>, List<(Place, Expr)>),
}

/// Expressions in their order.
pub type Exprs = List<Expr>;

/// A type, or the callee of a call, with the place of its first token.
#[cycle(expression)]
#[derive(Drop)]
pub enum TypeSpec {
    /// A type keyword with its brackets.
    Basic(Place, Basic, List<Dim>),
    /// `NAME` with its brackets.
    Named(Place, Text, List<Dim>),
}

/// A pair of brackets of a type or behind a declared name, with the place of its `[`.
#[cycle(expression)]
#[derive(Drop)]
pub enum Dim {
    /// `[ ]`
    Open(Place),
    /// `[ a ]`
    Sized(Place, Boxed<Expr>),
}

/// Pairs of brackets in their order.
pub type Dims = List<Dim>;

/// The types that keywords name.
#[derive(Clone, Copy, Debug, PartialEq, Eq)]
pub enum Basic {
    Void,
    Bool,
    Int,
    Uint,
    Bvec2,
    Bvec3,
    Bvec4,
    Ivec2,
    Ivec3,
    Ivec4,
    Uvec2,
    Uvec3,
    Uvec4,
}
