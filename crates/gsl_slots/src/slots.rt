//! A list of words that is changed in place.

ghost use Rattle.std.specs.Prelude.{◌≡◌, ◌+◌, ◌<◌, ◌≤◌, IfOk, drop, length, replicate, set, slice_index, take};
ghost use Rattle.gsl_region.specs.Showing.{with_words};

use gsl_base::Memory;
use std::alloc::Global;
use std::marker::Model;

/// Words in a row. Contracts see the words. No call but `new` wants memory.
#[derive(Drop)]
pub struct Slots {
    words: Vec<u32>,
}

impl Model for Slots {
    ghost use Rattle.std.specs.Prelude.{List, ℕ};

    ghost Value = { List ℕ };

    ghost view = { λ slots. slots.words.items };
}

impl Slots {
    /// So many words, all zero. They take four bytes each.
    pub fn new(alloc: Global, count: usize) -> Result<Slots, Memory>
        ensures { IfOk result (λ slots. slots ≡ replicate count 0) }
    {
        let words = vec![in alloc; 0; count]?;
        Ok(Slots { words })
    }

    /// How many words there are.
    pub fn len(&self) -> usize
        ensures { result ≡ length self.now }
    {
        self.words.len()
    }

    /// The word at a place.
    pub fn word(&self, at: usize) -> u32
        requires { at < length self.now }
        ensures { result ≡ slice_index self.now at }
    {
        self.words[at]
    }

    /// So many words from a place on.
    pub fn words(&self, at: usize, count: usize) -> &[u32]
        requires { at + count ≤ length self.now }
        ensures { result.now ≡ take count (drop at self.now) }
    {
        words_of(self.words.as_slice(), at, count)
    }

    /// Changes the word at a place, and no other.
    pub fn put(&mut self, at: usize, word: u32)
        requires { at < length self.old }
        ensures { self.new ≡ set self.old at word }
    {
        self.words[at] = word;
    }

    /// Copies words to a place.
    pub fn store(&mut self, at: usize, from: &[u32])
        requires { at + length from.now ≤ length self.old }
        ensures { self.new ≡ with_words self.old at from.now }
    {
        store_to(self.words.as_mut_slice(), at, from);
    }

    /// Copies so many words from a place to one behind them.
    pub fn copy(&mut self, from: usize, at: usize, count: usize)
        requires behind { from + count ≤ at }
        requires within { at + count ≤ length self.old }
        ensures { self.new ≡ with_words self.old at (take count (drop from self.old)) }
    {
        copy_to(self.words.as_mut_slice(), from, at, count);
    }
}

fn words_of(words: &[u32], at: usize, count: usize) -> &[u32]
    requires { at + count ≤ length words.now }
    ensures { result.now ≡ take count (drop at words.now) }
{
    let end = at + count;
    &words[at..end]
}

fn store_to(words: &mut [u32], at: usize, from: &[u32])
    requires { at + length from.now ≤ length words.old }
    ensures { words.new ≡ with_words words.old at from.now }
{
    for k in 0..from.len() {
        words[at + k] = from[k];
    }
}

fn copy_to(words: &mut [u32], from: usize, at: usize, count: usize)
    requires behind { from + count ≤ at }
    requires within { at + count ≤ length words.old }
    ensures { words.new ≡ with_words words.old at (take count (drop from words.old)) }
{
    for k in 0..count {
        words[at + k] = words[from + k];
    }
}
