ghost use Rattle.std.specs.Prelude.{◌≡◌};
ghost use Rattle.gsl_layout.specs.declared.refusal.LayRefusal.TheVariants.{Memory as WantOfMemory};
ghost use Rattle.gsl_layout.specs.declared.refusal.PlaceRefusal.TheVariants.{Memory as WantInPlacing};

use gsl_base::Memory;

/// Why members have no layout.
#[derive(Clone, Copy, Debug, PartialEq, Eq)]
pub enum LayRefusal {
    /// The block, or the stride of a runtime array, has more than 16,777,216 bytes.
    TooLarge,
    Memory,
}

/// Why members with placings have no layout.
#[derive(Clone, Copy, Debug, PartialEq, Eq)]
pub enum PlaceRefusal {
    /// The number of the first member that may not stand where its placing says.
    Misplaced(u32),
    /// The block, or the stride of a runtime array, has more than 16,777,216 bytes.
    TooLarge,
    Memory,
}

impl From<Memory> for LayRefusal {
    ghost from_gives = { λ _ refusal. refusal ≡ WantOfMemory };

    fn from(_error: Memory) -> LayRefusal {
        LayRefusal::Memory
    }
}

impl From<Memory> for PlaceRefusal {
    ghost from_gives = { λ _ refusal. refusal ≡ WantInPlacing };

    fn from(_error: Memory) -> PlaceRefusal {
        PlaceRefusal::Memory
    }
}
