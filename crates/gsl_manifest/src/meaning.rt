//! What a line of a manifest says.

use gsl_base::{Choices32, Comps, Text};

/// The word that a line begins with.
#[derive(Clone, Copy, Debug, PartialEq, Eq)]
pub enum Keyword {
    Buffer,
    Push,
    In,
    Group,
    Local,
    Groups,
    Vertex,
    Instance,
    Choice,
    Steps,
}

/// What a line says.
#[derive(Debug, Drop)]
pub enum Meaning {
    /// The line is empty or a comment.
    Nothing,
    /// The file with the bytes of the buffer at this set and binding.
    Buffer(u32, u32, Text),
    /// The file with the push constants.
    Push(Text),
    /// The words at a location.
    In(u32, Comps),
    Group([u32; 3]),
    Local([u32; 3]),
    Groups([u32; 3]),
    Vertex(u32),
    Instance(u32),
    /// More choices.
    Choice(Choices32),
    Steps(u64),
}
