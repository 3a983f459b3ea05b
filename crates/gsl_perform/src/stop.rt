//! Why there is nothing to go on with.

ghost use Rattle.std.specs.Prelude.{◌≡◌};
ghost use Rattle.gsl_perform.specs.declared.stop.Stop.TheVariants.{Memory as WantOfMemory};

use gsl_base::Memory;

/// Why a part of a shader gives nothing to go on with.
#[derive(Clone, Copy, Debug, PartialEq, Eq)]
pub enum Stop {
    /// `discard` ended the invocation.
    Ends,
    /// An index is out of bounds.
    Strays,
    /// A unit is wanting.
    Goes,
    Memory,
}

impl From<Memory> for Stop {
    ghost from_gives = { λ _ stop. stop ≡ WantOfMemory };

    fn from(_memory: Memory) -> Stop {
        Stop::Memory
    }
}
