//! The trees of the compiler's source language and its grammar (GLSL 4.50, chapter 9, integers alone).
//!
//! `specs/Phrases.antt` says which tokens stand for which expression, with `specs/Operators.antt`
//! for the operators; `specs/Declarations.antt`, `specs/Statements.antt` and `specs/Sentences.antt`
//! go on to declarations, statements and whole units. `specs/Nesting.antt` says how deeply tokens
//! nest, and at which token they nest too deeply.
#![tactic(auto)]

mod declaration;
mod expr;
mod nesting;
mod operator;
mod statement;

pub use declaration::{
    Decl, Declarator, Declared, Init, Lay, Lays, Member, Name, Qual, Quals, Struct, StructMember,
};
pub use expr::{Basic, Dim, Dims, Expr, Exprs, TypeSpec};
pub use nesting::Counter;
pub use operator::{AssignOp, BinaryOp, PostfixOp, UnaryOp};
pub use statement::{Body, ForInit, Function, Global, Param, Params, Stmt, Stmts, Unit};
