//! Why a command may stop short.

use gsl_base::{Bytes, Fault, Memory};

/// Why a command did not end well.
#[derive(Debug, Drop)]
pub enum Stop {
    /// The sources have this first fault.
    Fault(Fault),
    /// The module, or its text, is refused, and this line says why.
    Rejected(Bytes),
    /// A call of the host failed.
    Host,
    Memory,
}

impl From<Memory> for Stop {
    ghost use Rattle.std.specs.Prelude.{◌≡◌};
    ghost use Rattle.gsl_cmd.specs.declared.stop.Stop.TheVariants.{Memory as WantOfMemory};

    ghost from_gives = { λ _ stop. stop ≡ WantOfMemory };

    fn from(_error: Memory) -> Stop {
        Stop::Memory
    }
}
