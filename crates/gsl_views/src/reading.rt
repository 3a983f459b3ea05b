ghost use Rattle.std.specs.Prelude.{◌≡◌, ◌+◌, ◌<◌, ◌≤◌, ◌^◌, Some, length, slice_get};
ghost use Rattle.gsl_layout.specs.Kinds.{kind_of};
ghost use Rattle.gsl_layout.specs.Layout.{element_of, members_of, need, part_at};
ghost use Rattle.gsl_views.specs.Seen.{child, count_of, seen, words_of};
ghost use Rattle.gsl_views.specs.Viewed.{HasComponent, HasElement, HasMember, IsArray, IsElement, IsMember, shown, viewed};

use crate::view::View;
use gsl_layout::{Kind, Laid};

impl<'a> View<'a> {
    /// The bytes from their start on, seen through a layout that needs no more of them.
    pub fn new(bytes: &'a [u8], laid: &'a Laid) -> View<'a>
        requires need { need laid.now ≤ length bytes.now }
        requires small { length bytes.now < 2 ^ 32 }
        ensures bytes { (viewed result).bytes ≡ bytes.now }
        ensures layout { (viewed result).layout ≡ laid.now }
        ensures start { (viewed result).start ≡ 0 }
    {
        View {
            bytes,
            start: 0,
            laid,
        }
    }

    /// What stands at the top of its layout.
    pub fn kind(&self) -> Kind
        ensures { result ≡ kind_of (viewed self.now).layout }
    {
        self.laid.kind()
    }

    /// A member of a group.
    pub fn member(self, i: u32) -> View<'a>
        requires { HasMember (viewed self).layout i }
        ensures bytes { (viewed result).bytes ≡ (viewed self.entry).bytes }
        ensures part { IsMember (viewed self.entry) i (viewed result) }
        ensures shown { shown (viewed result) ≡ child (shown (viewed self.entry)) i }
    {
        View {
            bytes: self.bytes,
            start: self.start + self.laid.offset(i) as usize,
            laid: self.laid.part(i),
        }
    }

    /// An element of an array.
    pub fn element(self, i: u32) -> View<'a>
        requires { HasElement (viewed self) i }
        ensures bytes { (viewed result).bytes ≡ (viewed self.entry).bytes }
        ensures part { IsElement (viewed self.entry) i (viewed result) }
        ensures shown { shown (viewed result) ≡ child (shown (viewed self.entry)) i }
    {
        self.laid.keeps();
        View {
            bytes: self.bytes,
            start: self.start + self.laid.stride() as usize * i as usize,
            laid: self.laid.part(i),
        }
    }

    /// How many elements an array has; a runtime array has as many as whole strides fit in the bytes
    /// from its start on.
    pub fn length(&self) -> u32
        requires { IsArray (viewed self.now).layout }
        ensures { result ≡ count_of (shown (viewed self.now)) }
    {
        self.laid.keeps();
        match self.laid.count() {
            Some(count) => count,
            None => ((self.bytes.len() - self.start) / self.laid.stride() as usize) as u32,
        }
    }

    /// The word of a component.
    pub fn read_word(&self, c: u32) -> u32
        requires { HasComponent (viewed self.now).layout c }
        ensures { slice_get (words_of (shown (viewed self.now))) c ≡ Some result }
    {
        let at = self.start + 4 * c as usize;
        let bytes = self.bytes;
        u32::from_le_bytes([bytes[at], bytes[at + 1], bytes[at + 2], bytes[at + 3]])
    }
}
