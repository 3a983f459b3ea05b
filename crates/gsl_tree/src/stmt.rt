//! Typed statements (GLSL 4.50, chapter 6).

use crate::expr::Expr;
use gsl_base::{Boxed, List};

/// A statement.
#[cycle(statement)]
#[derive(Drop)]
pub enum Stmt {
    Empty,
    Eval(Expr),
    /// A local variable, by its number, with its initialiser.
    Declare(u32, Option<Expr>),
    Group(Stmts),
    If(Expr, Boxed<Stmt>, Option<Boxed<Stmt>>),
    /// A loop: the test is made before the body, or behind the step where it is last; `continue` goes to the step. No test is
    /// one that always holds.
    Loop {
        test: Option<Expr>,
        step: Option<Expr>,
        body: Boxed<Stmt>,
        test_last: bool,
    },
    Switch(Expr, Arms),
    Break,
    Continue,
    Return(Option<Expr>),
    Discard,
}

/// Statements in their order.
pub type Stmts = List<Stmt>;

/// Labels of a `switch` that stand together, and the statements up to the next label.
#[cycle(statement)]
#[derive(Drop)]
pub struct Arm {
    pub labels: Labels,
    /// Whether `default` stands among the labels.
    pub is_default: bool,
    pub body: Stmts,
}

/// The arms of a `switch` in their order.
pub type Arms = List<Arm>;

/// The words of `case` labels.
pub type Labels = List<u32>;
