//! Counts of words, as far as they are told.

ghost use Rattle.std.specs.Prelude.{◌≡◌, ◌+◌, ◌*◌};
ghost use Rattle.gsl_leaves.specs.Table.{told};

/// No count of words is told beyond this.
pub const MOST: u64 = (1 << 61) - 1;

/// So many times a count.
#[tactic(auto, using(crate::proofs::Told::product_told))]
pub(crate) fn times(count: u32, each: u64) -> u64
    ensures { result ≡ told (count * each) }
{
    each.saturating_mul(u64::from(count)).min(MOST)
}

/// The sum of two counts.
#[tactic(auto, using(crate::proofs::Told::sum_told))]
pub(crate) fn plus(a: u64, b: u64) -> u64
    ensures { result ≡ told (a + b) }
{
    a.saturating_add(b).min(MOST)
}
