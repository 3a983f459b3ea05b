ghost use Rattle.std.specs.Prelude.{◌≡◌, ◌+◌, ◌≤◌, ◌<◌, ◌^◌, ◌++◌, length};
ghost use Rattle.std.specs.Borrow.{sem};
ghost use Rattle.gsl_layout.specs.Layout.{need};
ghost use Rattle.gsl_views.specs.Lending.{LendsParts};

use crate::view_mut::ViewMut;
use gsl_layout::Laid;

/// Where bytes are cut, and what stands in the two halves: a layout at a start in the first, and another
/// where the second begins.
pub(crate) struct Cut<'a> {
    pub(crate) at: usize,
    pub(crate) start: usize,
    pub(crate) first: &'a Laid,
    pub(crate) second: &'a Laid,
}

// The views of two halves.
fn paired<'a>(halves: (&'a mut [u8], &'a mut [u8]), cut: Cut<'a>) -> (ViewMut<'a>, ViewMut<'a>)
    requires first_fits { cut.start + need cut.first.now ≤ length halves.0.now }
    requires second_fits { need cut.second.now ≤ length halves.1.now }
    requires first_small { length halves.0.now < 2 ^ 32 }
    requires second_small { length halves.1.now < 2 ^ 32 }
    ensures same_references { (result.0.bytes.ghost_name ≡ halves.entry.0.ghost_name) × (result.1.bytes.ghost_name ≡ halves.entry.1.ghost_name) }
    ensures bytes { (result.0.bytes.now ≡ halves.entry.0.now) × (result.1.bytes.now ≡ halves.entry.1.now) }
    ensures starts { (result.0.start ≡ cut.entry.start) × (result.1.start ≡ 0) }
    ensures layouts { (result.0.laid.now ≡ cut.entry.first.now) × (result.1.laid.now ≡ cut.entry.second.now) }
{
    let (left, right) = halves;
    let Cut {
        at: _,
        start,
        first,
        second,
    } = cut;
    (
        ViewMut {
            bytes: left,
            start,
            laid: first,
        },
        ViewMut {
            bytes: right,
            start: 0,
            laid: second,
        },
    )
}

// Bytes in two halves.
fn cut_in_two(bytes: &mut [u8], at: usize) -> (&mut [u8], &mut [u8])
    requires inside { at ≤ length bytes.old }
    ensures* gives_back { sem 𝓛 (LendsParts bytes.entry result.0 result.1) }
    ensures value { bytes.old ≡ result.0.now ++ result.1.now }
    ensures at { length result.0.now ≡ at }
{
    bytes.split_at_mut(at)
}

// Bytes that are cut, and a view of each half.
pub(crate) fn halved<'a>(bytes: &'a mut [u8], cut: Cut<'a>) -> (ViewMut<'a>, ViewMut<'a>)
    requires first_fits { cut.start + need cut.first.now ≤ cut.at }
    requires second_fits { cut.at + need cut.second.now ≤ length bytes.old }
    requires small { length bytes.old < 2 ^ 32 }
    ensures* gives_back { sem 𝓛 (LendsParts bytes.entry result.0.bytes result.1.bytes) }
    ensures bytes { bytes.old ≡ result.0.bytes.now ++ result.1.bytes.now }
    ensures at { length result.0.bytes.now ≡ cut.entry.at }
    ensures starts { (result.0.start ≡ cut.entry.start) × (result.1.start ≡ 0) }
    ensures layouts { (result.0.laid.now ≡ cut.entry.first.now) × (result.1.laid.now ≡ cut.entry.second.now) }
{
    let halves = cut_in_two(bytes, cut.at);
    paired(halves, cut)
}
