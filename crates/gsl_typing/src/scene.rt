use gsl_base::Stage;
use gsl_tree::{Blocks, Consts, Expr, Globals, Interfaces, LocalSizes, Params, Prototypes};
use gsl_types::{Structs, Types};

/// What is declared before an expression, list by list, and what is known of the variables.
#[derive(Drop)]
pub struct Scene {
    pub stage: Stage,
    pub structs: Structs,
    pub globals: Globals,
    pub blocks: Blocks,
    pub interfaces: Interfaces,
    pub prototypes: Prototypes,
    pub sizes: LocalSizes,
    /// The parameters of the function, if the expression stands in one.
    pub params: Params,
    /// The types of its local variables so far.
    pub locals: Types,
    pub consts: Consts,
}

/// A typed expression as a part of others.
#[derive(Drop)]
pub struct Part {
    pub expr: Expr,
    /// Whether it may not be written for a cause that its tree does not show: it is a `const` local variable or parameter, or a
    /// part of one, or the operand of a unary `+`.
    pub fixed: bool,
}
