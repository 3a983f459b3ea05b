//! Typed trees: what the checker makes of a unit and the linker of all units (GLSL 4.50, chapters 4 to 6).
//!
//! The definitions are in `specs/`. What an expression gives that needs no state: `Values`, `Operations`, `Drawing`, then
//! `Constants`, which says which expressions are constant. What it is to be well typed: `Trees`, `Shapes`, `Around`, `Paths`,
//! `Expressions`, `Statements`, `WellTyped`. What the limits count: `Weights`. No call is here: `gsl_compute` has the calls
//! that compute on values, and `gsl_fold` the one that folds constants.
#![tactic(auto)]

mod expr;
mod folded;
mod program;
mod stmt;
mod unit;

pub use expr::{Expr, ExprKind, Exprs, LogicOp, StageVar, StepOp};
pub use folded::{Consts, Folded, Foldeds, Standing};
pub use program::Program;
pub use stmt::{Arm, Arms, Labels, Stmt, Stmts};
pub use unit::{
    Block, BlockKind, BlockMember, BlockMembers, Blocks, Function, Functions, GlobalVar, Globals,
    Interface, Interfaces, LocalSize, LocalSizes, Params, Prototype, Prototypes, TypedUnit,
    TypedUnits,
};
