ghost use Rattle.std.specs.Prelude.{◌≡◌, ◌<◌, ◌≤◌, ◌+◌, ◌^◌, [], get_or, length, max};
ghost use Rattle.gsl_layout.specs.Extents.{most_bytes};
ghost use Rattle.gsl_layout.specs.Gathers.{Adds, Closes, Gathers, closed_align};
ghost use Rattle.gsl_layout.specs.Layout.{IsLayout, Group};
ghost use Rattle.gsl_layout.specs.Parts.{parts_of};
ghost use Rattle.gsl_layout.specs.Placings.{actual_align, free, offset_behind, stated};
ghost use Rattle.gsl_layout.specs.Rules.{IsAlignment, least_multiple};

use crate::laid::{Laid, Laids, Offsets};
use crate::measured::Measured;
use crate::placing::{Placing, Placings};
use crate::refusal::LayRefusal;
use crate::rules::Rules;
use std::alloc::Global;

/// No block has more bytes, and no runtime array a longer stride.
pub const MOST_BYTES: u32 = 16_777_216;

/// Members that were placed one behind another.
#[derive(Debug, Drop)]
pub(crate) struct Gathered {
    pub(crate) offsets: Offsets,
    pub(crate) laids: Laids,
    /// The end of the last member.
    pub(crate) end: u32,
    /// The largest base alignment of a member.
    pub(crate) base: u32,
    /// The largest actual alignment of a member.
    pub(crate) align: u32,
}

/// The least multiple of an alignment that is not below a place.
pub(crate) fn round_up(place: u64, align: u32) -> u64
    requires some { 1 ≤ align }
    requires place { place ≤ 2 ^ 34 }
    ensures least { result ≡ least_multiple align place }
    ensures near { result < place + align }
{
    let align = align as u64;
    (place + (align - 1)) / align * align
}

/// What is said of the place of a member.
pub(crate) fn placing_at(placings: &Placings, number: usize) -> Placing
    ensures { result ≡ get_or placings.now number free }
{
    if number < placings.len() {
        placings[number]
    } else {
        Placing {
            offset: None,
            align: None,
        }
    }
}

/// A number that may be stated, or another.
fn stated(number: Option<u32>, other: u64) -> u64
    ensures { result ≡ stated number other }
{
    match number {
        Some(n) => n as u64,
        None => other,
    }
}

/// The alignment of a member: its base alignment, or its `align` where that is larger.
pub(crate) fn actual_align(placing: Placing, base: u32) -> u32
    ensures { result ≡ max base (stated placing.align 0) }
{
    match placing.align {
        Some(align) => base.max(align),
        None => base,
    }
}

/// Where a member stands behind an end.
pub(crate) fn offset_behind(end: u64, placing: Placing, base: u32) -> u64
    requires base { 1 ≤ base }
    requires end { end ≤ 2 ^ 32 }
    ensures least { result ≡ least_multiple (max base (stated placing.align 0)) (stated placing.offset end) }
    ensures near { result < 2 ^ 34 }
{
    round_up(stated(placing.offset, end), actual_align(placing, base))
}

impl Gathered {
    pub(crate) fn new(alloc: Global) -> Gathered
        ensures { Gathers result [] }
    {
        Gathered {
            offsets: Offsets::new(alloc),
            laids: Laids::new(alloc),
            end: 0,
            base: 4,
            align: 4,
        }
    }

    /// Places one more member.
    pub(crate) fn add(&mut self, placing: Placing, measured: Measured) -> Result<(), LayRefusal>
        requires align { IsAlignment measured.align }
        requires size { measured.size ≤ most_bytes }
        requires small { self.old.end ≤ most_bytes }
        ensures { Adds result self.old self.new (placing, measured) }
    {
        let offset = offset_behind(self.end as u64, placing, measured.align);
        let end = offset + measured.size as u64;
        if end > MOST_BYTES as u64 {
            return Err(LayRefusal::TooLarge);
        }
        self.offsets.push(offset as u32)?;
        self.laids.push(measured.laid)?;
        self.end = end as u32;
        self.base = self.base.max(measured.align);
        self.align = self.align.max(actual_align(placing, measured.align));
        Ok(())
    }

    /// The members together, with their size rounded up to the alignment of the whole.
    pub(crate) fn close<R: Rules>(self, rules: &R) -> Result<Measured, LayRefusal>
        requires base { 1 ≤ self.align }
        requires end { self.end ≤ most_bytes }
        requires paired { length self.offsets ≡ length self.laids }
        requires layout { least_multiple (closed_align (R.raised rules.now) self) self.end ≤ most_bytes → IsLayout (Group (parts_of self.offsets self.laids) (least_multiple (closed_align (R.raised rules.now) self) self.end)) }
        ensures { Closes result (R.raised rules.now) self }
    {
        let align = self.align.max(rules.raise(self.base));
        let size = round_up(self.end as u64, align);
        if size > MOST_BYTES as u64 {
            return Err(LayRefusal::TooLarge);
        }
        let laid = Laid::group(self.offsets, self.laids, size as u32);
        Ok(Measured {
            align,
            size: size as u32,
            laid,
        })
    }
}
