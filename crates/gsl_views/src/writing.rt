ghost use Rattle.std.specs.Prelude.{◌≡◌, ◌+◌, ◌*◌, ◌<◌, ◌≤◌, ◌^◌, Some, length, slice_get};
ghost use Rattle.gsl_layout.specs.Kinds.{kind_of};
ghost use Rattle.gsl_layout.specs.Layout.{element_of, members_of, need, part_at};
ghost use Rattle.gsl_views.specs.Mutable.{held};
ghost use Rattle.gsl_views.specs.Seen.{child, count_of, seen, words_of};
ghost use Rattle.gsl_views.specs.Viewed.{HasComponent, HasElement, HasMember, IsArray, IsElement, IsMember, shown};
ghost use Rattle.gsl_words.specs.Words.{put_word};

use crate::view_mut::ViewMut;
use gsl_layout::{Kind, Laid};

impl<'a> ViewMut<'a> {
    /// The bytes from their start on, seen through a layout that needs no more of them.
    pub fn new(bytes: &'a mut [u8], laid: &'a Laid) -> ViewMut<'a>
        requires need { need laid.now ≤ length bytes.old }
        requires small { length bytes.old < 2 ^ 32 }
        ensures same_reference { result.bytes.ghost_name ≡ bytes.entry.ghost_name }
        ensures bytes { (held result).bytes ≡ bytes.old }
        ensures layout { (held result).layout ≡ laid.now }
        ensures start { (held result).start ≡ 0 }
    {
        ViewMut {
            bytes,
            start: 0,
            laid,
        }
    }

    /// What stands at the top of its layout.
    pub fn kind(&self) -> Kind
        ensures { result ≡ kind_of (held self.now).layout }
    {
        self.laid.kind()
    }

    /// A member of a group.
    pub fn member(self, i: u32) -> ViewMut<'a>
        requires { HasMember (held self).layout i }
        ensures same_reference { result.bytes.ghost_name ≡ self.entry.bytes.ghost_name }
        ensures bytes { (held result).bytes ≡ (held self.entry).bytes }
        ensures part { IsMember (held self.entry) i (held result) }
        ensures shown { shown (held result) ≡ child (shown (held self.entry)) i }
    {
        let start = self.start + self.laid.offset(i) as usize;
        let ViewMut {
            bytes,
            start: _,
            laid,
        } = self;
        ViewMut {
            bytes,
            start,
            laid: laid.part(i),
        }
    }

    /// An element of an array.
    pub fn element(self, i: u32) -> ViewMut<'a>
        requires { HasElement (held self) i }
        ensures same_reference { result.bytes.ghost_name ≡ self.entry.bytes.ghost_name }
        ensures bytes { (held result).bytes ≡ (held self.entry).bytes }
        ensures part { IsElement (held self.entry) i (held result) }
        ensures shown { shown (held result) ≡ child (shown (held self.entry)) i }
    {
        self.laid.keeps();
        let start = self.start + self.laid.stride() as usize * i as usize;
        let ViewMut {
            bytes,
            start: _,
            laid,
        } = self;
        ViewMut {
            bytes,
            start,
            laid: laid.part(i),
        }
    }

    /// How many elements an array has; a runtime array has as many as whole strides fit in the bytes
    /// from its start on.
    pub fn length(&self) -> u32
        requires { IsArray (held self.now).layout }
        ensures { result ≡ count_of (shown (held self.now)) }
    {
        self.laid.keeps();
        match self.laid.count() {
            Some(count) => count,
            None => ((self.bytes.len() - self.start) / self.laid.stride() as usize) as u32,
        }
    }

    /// The word of a component.
    pub fn read_word(&self, c: u32) -> u32
        requires { HasComponent (held self.now).layout c }
        ensures { slice_get (words_of (shown (held self.now))) c ≡ Some result }
    {
        let at = self.start + 4 * c as usize;
        u32::from_le_bytes([
            self.bytes[at],
            self.bytes[at + 1],
            self.bytes[at + 2],
            self.bytes[at + 3],
        ])
    }

    /// Changes the four bytes of a component to those of a word, and no other.
    pub fn write_word(&mut self, c: u32, word: u32)
        requires { HasComponent (held self.old).layout c }
        ensures same_reference { self.new.bytes.ghost_name ≡ self.old.bytes.ghost_name }
        ensures bytes { (held self.new).bytes ≡ put_word (held self.old).bytes ((held self.old).start + 4 * c) word }
        ensures layout { (held self.new).layout ≡ (held self.old).layout }
        ensures start { (held self.new).start ≡ (held self.old).start }
    {
        let at = self.start + 4 * c as usize;
        let [a, b, c, d] = word.to_le_bytes();
        self.bytes[at] = a;
        self.bytes[at + 1] = b;
        self.bytes[at + 2] = c;
        self.bytes[at + 3] = d;
    }
}
