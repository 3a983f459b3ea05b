//! What a manifest says.

ghost use Rattle.gsl_manifest.specs.declared.manifest.ManifestRefusal.TheVariants.{Memory as WantOfMemory};
ghost use Rattle.std.specs.Prelude.{◌≡◌};

use gsl_base::{Input, List, Memory, Text};
use thiserror::Error;

/// A file with the bytes of a buffer.
#[derive(Debug, Drop)]
pub struct BufferLine {
    pub set: u32,
    pub binding: u32,
    pub path: Text,
    /// The number of the line, from 1.
    pub line: u32,
}

/// The files of buffers, in the order of their lines.
pub type BufferLines = List<BufferLine>;

/// The file with the bytes of the push constant block.
#[derive(Debug, Drop)]
pub struct PushLine {
    pub path: Text,
    /// The number of the line, from 1.
    pub line: u32,
}

/// What is given to a run, and how long it may take.
#[derive(Debug, Drop)]
pub struct Manifest {
    pub buffers: BufferLines,
    pub push: Option<PushLine>,
    /// All that the manifest itself gives. Its buffers and push constants are empty until the files are read.
    pub input: Input,
    /// How many instructions may run.
    pub steps: u64,
}

/// Why there is no manifest.
#[derive(Clone, Copy, Debug, PartialEq, Eq, Error)]
pub enum ManifestRefusal {
    /// The first line, from 1, that no manifest has there.
    #[error("line {0} is not one of a manifest")]
    Line(u32),
    #[error("out of memory")]
    Memory,
}

impl From<Memory> for ManifestRefusal {
    ghost from_gives = { λ _ refusal. refusal ≡ WantOfMemory };

    fn from(_error: Memory) -> ManifestRefusal {
        ManifestRefusal::Memory
    }
}
