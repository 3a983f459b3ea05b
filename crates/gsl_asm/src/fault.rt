//! Why a text is no module.

ghost use Rattle.std.specs.Prelude.{◌≡◌};
ghost use Rattle.gsl_asm.specs.declared.fault.AsmFault.TheVariants.{Memory as WantOfMemory};

use gsl_base::Memory;
use thiserror::Error;

/// Why a text is no module.
#[derive(Clone, Copy, Debug, PartialEq, Eq, Error)]
pub enum AsmFault {
    /// The first line, from 1, that no text has there.
    #[error("line {0} is not one of a module")]
    Line(u32),
    #[error("out of memory")]
    Memory,
}

impl From<Memory> for AsmFault {
    ghost from_gives = { λ _ fault. fault ≡ WantOfMemory };

    fn from(_error: Memory) -> AsmFault {
        AsmFault::Memory
    }
}
