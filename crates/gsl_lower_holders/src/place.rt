//! Where a body is lowered, and what it stands on.

use gsl_base::List;
use gsl_types::Ty;

/// Ids in their order.
pub type Ids = List<u32>;

/// Types, each with the id of the type that stands for it outside blocks.
pub type TypeIds = List<(Ty, u32)>;

/// The open block and what is declared for the function that it is in: the block's label; the ids of the function's local variables and
/// parameters, and of the program's globals, blocks, inputs and outputs, built-in variables and functions, each in the program's order;
/// the storage class of each block's variable; the arrays and structs; and the function's holders, with how many of them were used.
#[derive(Drop)]
pub struct FlowPlace {
    pub label: u32,
    pub locals: Ids,
    pub params: Ids,
    pub globals: Ids,
    pub blocks: Ids,
    pub classes: Ids,
    pub interfaces: Ids,
    pub stage_vars: Ids,
    pub functions: Ids,
    pub composites: TypeIds,
    pub holders: Ids,
    pub used: u32,
}
