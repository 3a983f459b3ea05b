//! A program of the form that is built so far, as plain data.

use gsl_base::{List, Text};

/// The most members of a block.
pub const MAX_MEMBERS: u32 = 64;

/// The most statements of `main`.
pub const MAX_STATEMENTS: u32 = 256;

/// The most terms of a sum.
pub const MAX_TERMS: u32 = 64;

/// A term of a sum: a member of the block by its number, or a literal.
#[derive(Clone, Copy, Debug, PartialEq, Eq)]
pub enum Term {
    Member(u32),
    Literal(u32),
}

/// The terms of a sum.
pub type Terms = List<Term>;

/// An assignment of a sum to a member of the block.
#[derive(Debug, Drop)]
pub struct Statement {
    pub target: u32,
    pub terms: Terms,
}

/// Statements in their order.
pub type Statements = List<Statement>;

/// Names of members in their order.
pub type Names = List<Text>;

/// The members of the one block, all of them `int`, and the statements of `main`.
#[derive(Debug, Drop)]
pub struct Program {
    pub members: Names,
    pub statements: Statements,
}
