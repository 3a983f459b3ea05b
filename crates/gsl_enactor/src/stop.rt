//! Why a run may stop short.

use gsl_base::{Bytes, Memory};

/// Why nothing is listed.
#[derive(Debug, Drop)]
pub enum Stop {
    /// A call of the host failed.
    Host,
    Memory,
    /// The module is going on after its steps.
    Going,
    /// The index of the instruction at this word was out of bounds.
    Strayed(u32),
    /// The manifest or the input is refused, and this line says why.
    Input(Bytes),
    /// The file is none of a valid module, and this line says why.
    Module(Bytes),
    /// The module came to where no meaning is given.
    Stuck,
}

impl From<Memory> for Stop {
    ghost use Rattle.std.specs.Prelude.{◌≡◌};
    ghost use Rattle.gsl_enactor.specs.declared.stop.Stop.TheVariants.{Memory as WantOfMemory};

    ghost from_gives = { λ _ stop. stop ≡ WantOfMemory };

    fn from(_error: Memory) -> Stop {
        Stop::Memory
    }
}

impl Stop {
    /// The status with which the program ends.
    pub fn status(&self) -> u8 {
        match self {
            Stop::Host => 3,
            Stop::Memory => 4,
            Stop::Going => 5,
            Stop::Strayed(_) => 6,
            Stop::Input(_) => 7,
            Stop::Module(_) => 8,
            Stop::Stuck => 9,
        }
    }
}
