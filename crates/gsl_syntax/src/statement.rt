//! Statements, functions and whole units (GLSL 4.50, 6).

use crate::declaration::{Decl, Name, Quals};
use crate::expr::{Dims, Expr, TypeSpec};
use gsl_base::{Boxed, List, Place};

/// A statement, with the place of its keyword, `{` or `;` where it begins with one.
#[derive(Drop)]
pub enum Stmt {
    /// `;`
    Empty(Place),
    /// `{ .. }`
    Block(Place, List<Stmt>),
    Decl(Decl),
    /// `a ;`
    Expr(Expr),
    /// `if (a) s`
    If(Place, Expr, Boxed<Stmt>),
    /// `if (a) s else t`
    IfElse(Place, Expr, Boxed<Stmt>, Boxed<Stmt>),
    /// `switch (a) { .. }`
    Switch(Place, Expr, List<Stmt>),
    /// `case a :`
    Case(Place, Expr),
    /// `default :`
    Default(Place),
    /// `while (a) s`
    While(Place, Expr, Boxed<Stmt>),
    /// `do s while (a) ;`
    Do(Place, Boxed<Stmt>, Expr),
    /// `for (init a ; b) s`
    For(Place, ForInit, Option<Expr>, Option<Expr>, Boxed<Stmt>),
    /// `break ;`
    Break(Place),
    /// `continue ;`
    Continue(Place),
    /// `discard ;`
    Discard(Place),
    /// `return ;`
    Return(Place),
    /// `return a ;`
    ReturnValue(Place, Expr),
}

/// Statements in their order.
pub type Stmts = List<Stmt>;

/// What stands first in the header of a `for`, with its semicolon.
#[derive(Drop)]
pub enum ForInit {
    /// `;`
    Empty(Place),
    /// `a ;`
    Expr(Expr),
    Decl(Decl),
}

/// A parameter. Where it has no name, its brackets are those of its type.
#[derive(Drop)]
pub enum Param {
    Unnamed(Quals, TypeSpec),
    Named(Quals, TypeSpec, Name, Dims),
}

/// The parameters of a function.
#[derive(Drop)]
pub enum Params {
    /// `( )` or `( a, b )`
    Items(List<Param>),
    /// `( void )`, with the place of `void`
    Void(Place),
}

/// What follows the parameters of a function.
#[derive(Drop)]
pub enum Body {
    /// `;`
    Prototype(Place),
    /// `{ .. }`
    Block(Place, Stmts),
}

/// A function or its prototype.
#[derive(Drop)]
pub struct Function {
    pub quals: Quals,
    pub ty: TypeSpec,
    pub name: Name,
    pub params: Params,
    pub body: Body,
}

/// What stands at the top of a unit.
#[derive(Drop)]
pub enum Global {
    /// `;`
    Empty(Place),
    Decl(Decl),
    Function(Function),
}

/// A whole source file.
pub type Unit = List<Global>;
