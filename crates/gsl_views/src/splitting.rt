ghost use Rattle.std.specs.Prelude.{◌≡◌, ◌+◌, ◌≤◌, ◌<◌, ◌^◌, ◌++◌, ℕ, List, length};
ghost use Rattle.std.specs.Borrow.{sem};
ghost use Rattle.gsl_layout.specs.Layout.{IsLayout, need};
ghost use Rattle.gsl_views.specs.Lending.{LendsParts};
ghost use Rattle.gsl_views.specs.Mutable.{held};
ghost use Rattle.gsl_views.specs.Seen.{child};
ghost use Rattle.gsl_views.specs.Viewed.{HasElement, HasMember, IsElement, IsMember, behind, shown, standing};

use crate::halves::{Cut, halved};
use crate::view_mut::ViewMut;
use gsl_layout::Laid;

// The cut in front of the second of two members.
fn member_cut<'a>(laid: &'a Laid, start: usize, i: u32, j: u32) -> Cut<'a>
    ghost bytes: { List ℕ }
    requires order { i < j }
    requires member { HasMember laid.now j }
    requires fits { start + need laid.now ≤ length bytes }
    requires small { length bytes < 2 ^ 32 }
    ensures layout { IsLayout laid.now }
    ensures first { IsMember (standing bytes start laid.now) i (standing bytes result.start result.first.now) }
    ensures second { IsMember (standing bytes start laid.now) j (standing bytes result.at result.second.now) }
{
    laid.keeps();
    Cut {
        at: start + laid.offset(j) as usize,
        start: start + laid.offset(i) as usize,
        first: laid.part(i),
        second: laid.part(j),
    }
}

// The cut in front of the second of two elements.
fn element_cut<'a>(laid: &'a Laid, start: usize, i: u32, j: u32) -> Cut<'a>
    ghost bytes: { List ℕ }
    requires order { i < j }
    requires element { HasElement (standing bytes start laid.now) j }
    requires fits { start + need laid.now ≤ length bytes }
    requires small { length bytes < 2 ^ 32 }
    ensures layout { IsLayout laid.now }
    ensures first { IsElement (standing bytes start laid.now) i (standing bytes result.start result.first.now) }
    ensures second { IsElement (standing bytes start laid.now) j (standing bytes result.at result.second.now) }
{
    laid.keeps();
    let stride = laid.stride() as usize;
    Cut {
        at: start + stride * j as usize,
        start: start + stride * i as usize,
        first: laid.part(i),
        second: laid.part(j),
    }
}

impl<'a> ViewMut<'a> {
    /// Two members of a group. They share no byte: the first has the bytes before the second.
    pub fn split_members(self, i: u32, j: u32) -> (ViewMut<'a>, ViewMut<'a>)
        requires order { i < j }
        requires member { HasMember (held self).layout j }
        ensures* gives_back { sem 𝓛 (LendsParts self.entry.bytes result.0.bytes result.1.bytes) }
        ensures bytes { (held result.0).bytes ++ (held result.1).bytes ≡ (held self.entry).bytes }
        ensures first { IsMember (held self.entry) i (held result.0) }
        ensures second { IsMember (held self.entry) j (behind (held result.0).bytes (held result.1)) }
        ensures shown_first { shown (held result.0) ≡ child (shown (held self.entry)) i }
        ensures shown_second { shown (held result.1) ≡ child (shown (held self.entry)) j }
    {
        let ViewMut { bytes, start, laid } = self;
        let cut = member_cut(laid, start, i, j);
        halved(bytes, cut)
    }

    /// Two elements of an array. They share no byte: the first has the bytes before the second.
    pub fn split_elements(self, i: u32, j: u32) -> (ViewMut<'a>, ViewMut<'a>)
        requires order { i < j }
        requires element { HasElement (held self) j }
        ensures* gives_back { sem 𝓛 (LendsParts self.entry.bytes result.0.bytes result.1.bytes) }
        ensures bytes { (held result.0).bytes ++ (held result.1).bytes ≡ (held self.entry).bytes }
        ensures first { IsElement (held self.entry) i (held result.0) }
        ensures second { IsElement (held self.entry) j (behind (held result.0).bytes (held result.1)) }
        ensures shown_first { shown (held result.0) ≡ child (shown (held self.entry)) i }
        ensures shown_second { shown (held result.1) ≡ child (shown (held self.entry)) j }
    {
        let ViewMut { bytes, start, laid } = self;
        let cut = element_cut(laid, start, i, j);
        halved(bytes, cut)
    }
}
