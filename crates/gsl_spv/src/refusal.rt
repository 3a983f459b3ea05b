//! Why a builder refuses.

ghost use Rattle.std.specs.Prelude.{◌≡◌};
ghost use Rattle.gsl_spv.specs.declared.refusal.BuildRefusal.TheVariants.{Memory as WantOfMemory};

use gsl_base::Memory;

/// The greatest id of a module.
pub const MOST_IDS: u32 = 4_194_302;

/// Why a builder refuses.
#[derive(Clone, Copy, Debug, PartialEq, Eq)]
pub enum BuildRefusal {
    /// The call takes a new id, and that would be greater than `MOST_IDS`.
    TooManyIds,
    Memory,
}

impl From<Memory> for BuildRefusal {
    ghost from_gives = { λ _ refusal. refusal ≡ WantOfMemory };

    fn from(_error: Memory) -> BuildRefusal {
        BuildRefusal::Memory
    }
}
