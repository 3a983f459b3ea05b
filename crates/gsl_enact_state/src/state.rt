//! What a module works on while it runs.

use crate::code::Code;
use gsl_base::{Buffers, List};
use gsl_enact_memory::Pointer;
use gsl_values::{Choices, Value, Values};

/// What an id stands for.
#[derive(Drop)]
pub enum Held {
    Whole(Value),
    Points(Pointer),
}

/// An id with what it stands for.
#[derive(Drop)]
pub struct Given {
    pub id: u32,
    pub held: Held,
}

/// A call that waits for the return of a function: the id of its result, the instructions behind it and those of its function, what ids
/// stand for in its function and in its block, and how many variables there were.
#[derive(Drop)]
pub struct Waiting<'a> {
    pub result: u32,
    pub rest: Code<'a>,
    pub body: Code<'a>,
    pub own: List<Given>,
    pub rows: List<Given>,
    pub count: usize,
}

/// The next instructions and all those of the function, up to the first end of one; what ids stand for beside those of the module: those that
/// last for the whole function, and those of its block, each with the last given behind; the variables, the buffers, the choices that are
/// left, and the calls that wait, the last behind.
#[derive(Drop)]
pub struct State<'a> {
    pub rest: Code<'a>,
    pub body: Code<'a>,
    pub own: List<Given>,
    pub rows: List<Given>,
    pub variables: Values,
    pub buffers: Buffers,
    pub choices: Choices,
    pub waiting: List<Waiting<'a>>,
}
