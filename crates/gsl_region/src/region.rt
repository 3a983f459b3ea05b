//! A region of words.

ghost use Rattle.std.specs.Prelude.{◌≡◌, ◌+◌, ◌*◌, ◌^◌, ◌<◌, ◌≤◌, IfOk, drop, length, replicate, set, slice_index, take};
ghost use Rattle.gsl_region.specs.Showing.{with_words};

use crate::words::{load_from, put_word_of, store_to, word_of, zero_from};
use gsl_base::Memory;
use gsl_layout::Laid;
use std::alloc::Global;
use std::marker::Model;

/// Words in a row, four bytes each. Contracts see the words. No call but `new` wants memory.
#[derive(Drop)]
pub struct Region {
    bytes: Vec<u8>,
    leaf: Laid,
}

impl Model for Region {
    ghost use Rattle.std.specs.Prelude.{List, ℕ, ◌≡◌, ◌%◌, length};
    ghost use Rattle.gsl_layout.specs.Layout.{Leaf};
    ghost use Rattle.gsl_region.specs.Showing.{as_words};

    ghost Value = { List ℕ };

    ghost view = { λ region. as_words region.bytes.items };

    ghost invariant = { λ region. (region.leaf ≡ Leaf 1) × (length region.bytes.items % 4 ≡ 0) };
}

impl Region {
    /// So many words, all zero. They take four bytes each.
    pub fn new(alloc: Global, count: u64) -> Result<Region, Memory>
        requires { 4 * count < 2 ^ 64 }
        ensures { IfOk result (λ region. region ≡ replicate count 0) }
    {
        let bytes = vec![in alloc; 0; 4 * count as usize]?;
        Ok(Region {
            bytes,
            leaf: Laid::leaf(1),
        })
    }

    /// How many words there are.
    pub fn len(&self) -> u64
        ensures { result ≡ length self.now }
    {
        self.bytes.len() as u64 / 4
    }

    /// The word at a place.
    pub fn word(&self, place: u64) -> u32
        requires { place < length self.now }
        ensures { result ≡ slice_index self.now place }
    {
        word_of(self.bytes.as_slice(), &self.leaf, place as usize)
    }

    /// Changes the word at a place, and no other.
    pub fn put(&mut self, place: u64, word: u32)
        requires { place < length self.old }
        ensures { self.new ≡ set self.old place word }
    {
        put_word_of(self.bytes.as_mut_slice(), &self.leaf, place as usize, word);
    }

    /// Copies the words from a place on.
    pub fn load(&self, place: u64, into: &mut [u32])
        requires { place + length into.old ≤ length self.now }
        ensures { into.new ≡ take (length into.old) (drop place self.now) }
    {
        load_from(self.bytes.as_slice(), &self.leaf, place as usize, into);
    }

    /// Copies words to a place.
    pub fn store(&mut self, place: u64, from: &[u32])
        requires { place + length from.now ≤ length self.old }
        ensures { self.new ≡ with_words self.old place from.now }
    {
        store_to(self.bytes.as_mut_slice(), &self.leaf, place as usize, from);
    }

    /// Changes so many words from a place on to zero.
    pub fn zero(&mut self, place: u64, count: u64)
        requires { place + count ≤ length self.old }
        ensures { self.new ≡ with_words self.old place (replicate count 0) }
    {
        zero_from(
            self.bytes.as_mut_slice(),
            &self.leaf,
            place as usize,
            count as usize,
        );
    }
}
