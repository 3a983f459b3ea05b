ghost use Rattle.std.specs.Prelude.{◌≡◌};
ghost use Rattle.gsl_fold.specs.declared.stop.Stop.TheVariants.{Memory as WantOfMemory};

use gsl_base::Memory;

/// Why an expression has no value.
#[derive(Clone, Copy, Debug, PartialEq, Eq)]
pub enum Stop {
    /// An index is out of bounds.
    Strays,
    Memory,
}

impl From<Memory> for Stop {
    ghost from_gives = { λ _ stop. stop ≡ WantOfMemory };

    fn from(_memory: Memory) -> Stop {
        Stop::Memory
    }
}
