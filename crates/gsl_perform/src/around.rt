//! What expressions are performed in.

use crate::frame::Frame;
use std::alloc::Global;

/// What expressions are performed in: a frame, and what calls functions of its program, where calls nest at most so deep.
#[derive(Clone, Copy)]
pub struct Around<'a, F> {
    pub alloc: Global,
    pub frame: &'a Frame<'a>,
    pub depth: usize,
    pub call: F,
}
