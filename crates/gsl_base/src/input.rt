//! What a run of a shader is given, and what it gives back.

use crate::Bytes;
use crate::list::List;

/// Choices that a run draws in their order, where the language leaves a value free.
pub type Choices32 = List<u32>;

/// The words of a value at a location.
pub type Comps = List<u32>;

/// A buffer by its descriptor set and binding, with its bytes.
#[derive(Debug, Drop)]
pub struct Buffer {
    pub set: u32,
    pub binding: u32,
    pub bytes: Bytes,
}

/// Buffers in ascending order of set and binding.
pub type Buffers = List<Buffer>;

/// The words at a location.
#[derive(Debug, Drop)]
pub struct Located {
    pub location: u32,
    pub words: Comps,
}

/// Inputs in ascending order of location.
pub type Ins = List<Located>;

/// Outputs in ascending order of location.
pub type Outs = List<Located>;

/// What a run is given. `specs/Proper.antt` says which inputs are proper, and `specs/Ranges.antt` which
/// have numbers that fit their types.
#[derive(Debug, Drop)]
pub struct Input {
    pub buffers: Buffers,
    /// The bytes of the push constant block.
    pub push: Option<Bytes>,
    pub ins: Ins,
    /// The number of the work group, in three dimensions.
    pub group: [u32; 3],
    /// The number of the invocation in its work group.
    pub local: [u32; 3],
    /// How many work groups there are.
    pub groups: [u32; 3],
    pub vertex: u32,
    pub instance: u32,
    pub choices: Choices32,
}

/// What a run that ended gives.
#[derive(Debug, Drop)]
pub struct Output {
    /// All given buffers with their final bytes.
    pub buffers: Buffers,
    pub outs: Outs,
    /// Whether `discard` ended the run.
    pub killed: bool,
    /// How many of the listed choices are left.
    pub rest: u32,
}

/// Why an input does not fit a shader.
#[derive(Clone, Copy, Debug, PartialEq, Eq)]
pub enum InputRefusal {
    /// No buffer is given at this set and binding.
    NoBuffer(u32, u32),
    /// The buffer at this set and binding has fewer bytes than its block needs.
    TooShort(u32, u32),
    /// No push constants are given.
    NoPush,
    /// The push constants have fewer bytes than their block needs.
    PushShort,
    /// No value, or one of too few words, is given at this location.
    NoValue(u32),
    /// The invocation or the work group is none of those that are run.
    BadIds,
}
