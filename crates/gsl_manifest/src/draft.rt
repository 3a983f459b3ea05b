//! What the lines of a manifest that were read so far say.

use crate::manifest::{BufferLines, PushLine};
use gsl_base::{Choices32, Ins};

/// What the lines so far say; what none of them says is `None` or empty.
#[derive(Debug, Drop)]
pub struct Draft {
    pub buffers: BufferLines,
    pub push: Option<PushLine>,
    pub ins: Ins,
    pub group: Option<[u32; 3]>,
    pub local: Option<[u32; 3]>,
    pub groups: Option<[u32; 3]>,
    pub vertex: Option<u32>,
    pub instance: Option<u32>,
    pub choices: Choices32,
    pub steps: Option<u64>,
}
