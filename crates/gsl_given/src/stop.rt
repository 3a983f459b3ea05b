//! Why there is no input.

use gsl_base::{Bytes, Memory};

/// Why there is no input.
#[derive(Debug, Drop)]
pub enum Stop {
    /// The manifest, or a file that it names, is refused, and this line says why.
    Refused(Bytes),
    /// A call of the host failed.
    Host,
    Memory,
}

impl From<Memory> for Stop {
    ghost use Rattle.std.specs.Prelude.{◌≡◌};
    ghost use Rattle.gsl_given.specs.declared.stop.Stop.TheVariants.{Memory as WantOfMemory};

    ghost from_gives = { λ _ stop. stop ≡ WantOfMemory };

    fn from(_error: Memory) -> Stop {
        Stop::Memory
    }
}
