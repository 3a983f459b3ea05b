//! A whole program.

use crate::unit::{Blocks, Functions, Globals, Interfaces, Prototypes};
use gsl_base::Stage;
use gsl_types::Structs;

/// The lists of all units joined.
#[derive(Drop)]
pub struct Program {
    pub stage: Stage,
    pub structs: Structs,
    pub globals: Globals,
    pub blocks: Blocks,
    pub interfaces: Interfaces,
    pub prototypes: Prototypes,
    pub functions: Functions,
    /// The number of `main` among the functions.
    pub main: u32,
    /// The size of a work group; 1 1 1 in a stage that has none.
    pub local_size: [u32; 3],
}
