//! Typed expressions (GLSL 4.50, chapter 5).

use gsl_base::{Boxed, List, Place};
use gsl_types::Ty;
use gsl_values::{BinaryOp, Builtin, Lanes, UnaryOp, Value};

/// An expression, with the type of its value and the place of its head token. There is one for each operator, call,
/// constructor, initialiser list, index, member, swizzle, name and literal of the source, and one for each implicit
/// conversion. The name of a callee, a unary `+`, the name of a block before its member and the conversion of an `out`
/// argument have none; a list that commas join has one for all of its commas.
#[cycle(tree)]
#[derive(Drop)]
pub struct Expr {
    pub ty: Ty,
    pub place: Place,
    pub kind: ExprKind,
}

/// What an expression is. Variables, functions and members are named by their numbers.
#[cycle(tree)]
#[derive(Drop)]
pub enum ExprKind {
    /// A literal, or `gl_WorkGroupSize`.
    Const(Value),
    /// A local variable of the function.
    Local(u32),
    /// A global variable of the unit.
    Global(u32),
    /// A parameter of the function.
    Param(u32),
    /// A block, and its member.
    BlockMember(u32, u32),
    /// A built-in variable.
    Stage(StageVar),
    /// An input or an output.
    Interface(u32),
    /// `a.m` of a struct
    Member(Boxed<Expr>, u32),
    /// `a[i]`
    Index(Boxed<Expr>, Boxed<Expr>),
    /// `a.xyz`, by the positions that it picks
    Swizzle(Boxed<Expr>, Lanes),
    /// `a.length()`; `a` is not evaluated
    Length(Boxed<Expr>),
    /// `-a`, `~a` and `!a`
    Unary(UnaryOp, Boxed<Expr>),
    /// `a + b` and its kin
    Binary(BinaryOp, Boxed<Expr>, Boxed<Expr>),
    /// `a && b`, `a || b` and `a ^^ b`
    Logic(LogicOp, Boxed<Expr>, Boxed<Expr>),
    /// `a ? b : c`
    Choose(Boxed<Expr>, Boxed<Expr>, Boxed<Expr>),
    /// `a = b`
    Assign(Boxed<Expr>, Boxed<Expr>),
    /// `a += b` and its kin
    Update(BinaryOp, Boxed<Expr>, Boxed<Expr>),
    /// `++a`, `--a`, `a++` and `a--`
    Step(StepOp, Boxed<Expr>),
    /// A call of a function of the program, by its prototype.
    Call(u32, Exprs),
    /// A call of a built-in function.
    Built(Builtin, Exprs),
    /// A constructor or an initialiser list.
    Build(Exprs),
    /// An implicit conversion to the type of the expression.
    Convert(Boxed<Expr>),
    /// `a, b, ..`
    Comma(Exprs),
}

/// Expressions in their order.
pub type Exprs = List<Expr>;

/// The logical operators on two operands.
#[derive(Clone, Copy, Debug, PartialEq, Eq)]
pub enum LogicOp {
    /// `&&`
    And,
    /// `||`
    Or,
    /// `^^`
    Xor,
}

/// The operators that count up and down.
#[derive(Clone, Copy, Debug, PartialEq, Eq)]
pub enum StepOp {
    /// `++a`
    PreUp,
    /// `--a`
    PreDown,
    /// `a++`
    PostUp,
    /// `a--`
    PostDown,
}

/// The built-in variables that are read from the stage (GLSL 4.50, 7.1; GL_KHR_vulkan_glsl). `gl_WorkGroupSize` is a
/// constant.
#[derive(Clone, Copy, Debug, PartialEq, Eq)]
pub enum StageVar {
    /// `gl_NumWorkGroups`
    NumWorkGroups,
    /// `gl_WorkGroupID`
    WorkGroupId,
    /// `gl_LocalInvocationID`
    LocalInvocationId,
    /// `gl_GlobalInvocationID`
    GlobalInvocationId,
    /// `gl_LocalInvocationIndex`
    LocalInvocationIndex,
    /// `gl_VertexIndex`
    VertexIndex,
    /// `gl_InstanceIndex`
    InstanceIndex,
}
