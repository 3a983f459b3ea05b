//! Counts up to a ceiling.

ghost use Rattle.std.specs.Prelude.{◌≡◌, ◌+◌};
ghost use Rattle.gsl_weights.specs.Telling.{up_to};

/// No count is told beyond this.
pub const MOST_TOLD: u32 = 1 << 20;

/// The sum of two counts.
pub(crate) fn added(a: u32, b: u32) -> u32
    ensures { result ≡ up_to (a + b) }
{
    a.saturating_add(b).min(MOST_TOLD)
}

/// A count as it is told.
pub(crate) fn told(count: u64) -> u32
    ensures { result ≡ up_to count }
{
    count.min(MOST_TOLD as u64) as u32
}
