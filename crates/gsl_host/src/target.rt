//! What a call of a host reaches for, and how it may refuse.

ghost use Rattle.std.specs.Prelude.{◌≡◌};
ghost use Rattle.gsl_host.specs.declared.target.ReadRefusal.TheVariants.{Memory as ReadWantsMemory};
ghost use Rattle.gsl_host.specs.declared.target.HostRefusal.TheVariants.{Memory as HostWantsMemory};

use gsl_base::{Memory, Text};

/// A standard stream.
#[derive(Clone, Copy, Debug, PartialEq, Eq)]
pub enum Stream {
    Out,
    Err,
}

/// What a call reaches for. A host counts its faults by target.
#[derive(Debug, Drop)]
pub enum Target {
    Reading(Text),
    Writing(Text),
    Printing(Stream),
}

/// Why a file was not read.
#[derive(Clone, Copy, Debug, PartialEq, Eq)]
pub enum ReadRefusal {
    /// The outside failed: the faults of reading this name rose.
    Failed,
    /// The file has more bytes than were asked for at most.
    TooLong,
    Memory,
}

/// Why a file was not written or a stream not printed on.
#[derive(Clone, Copy, Debug, PartialEq, Eq)]
pub enum HostRefusal {
    /// The outside failed: the faults of the call's target rose.
    Failed,
    Memory,
}

impl From<Memory> for ReadRefusal {
    ghost from_gives = { λ _ refusal. refusal ≡ ReadWantsMemory };

    fn from(_error: Memory) -> ReadRefusal {
        ReadRefusal::Memory
    }
}

impl From<Memory> for HostRefusal {
    ghost from_gives = { λ _ refusal. refusal ≡ HostWantsMemory };

    fn from(_error: Memory) -> HostRefusal {
        HostRefusal::Memory
    }
}
