//! Operand words.

ghost use Rattle.std.specs.Prelude.{◌≡◌, ◌≤◌, length, take, drop, slice_index};
ghost use Rattle.gsl_instr.specs.Texts as spec;

use std::marker::Model;

/// Operand words. Contracts see the list of them.
#[derive(Drop)]
pub struct Operands<'a> {
    words: &'a [u32],
}

impl<'a> Model for Operands<'a> {
    ghost use Rattle.std.specs.Prelude.{List, ℕ};

    ghost Value = { List ℕ };

    ghost view = { λ operands. operands.words.now };
}

impl<'a> Operands<'a> {
    /// The words of a slice.
    pub fn new(words: &'a [u32]) -> Operands<'a>
        ensures { result ≡ words.now }
    {
        Operands { words }
    }

    /// Lends the words.
    pub fn as_slice(&self) -> &'a [u32]
        ensures { result.now ≡ self.now }
    {
        self.words
    }
}

/// An operand by its place, 0 where there is none.
pub fn arg(args: &[u32], k: usize) -> u32
    ensures { result ≡ slice_index args.now k }
{
    match args.get(k) {
        Some(word) => *word,
        None => 0,
    }
}

/// The operands from a place on.
pub fn from(args: &[u32], k: usize) -> Operands<'_>
    ensures { result ≡ drop k args.now }
{
    if k < args.len() {
        Operands::new(&args[k..])
    } else {
        Operands::new(&[])
    }
}

/// How many words a text has.
pub fn text_len(words: &[u32]) -> usize
    ensures front { spec.text_words words.now ≡ take result words.now }
    ensures behind { spec.after_text words.now ≡ drop result words.now }
    ensures within { result ≤ length words.now }
{
    for (i, word) in words.iter().enumerate() {
        if *word < 1 << 24 {
            return i + 1;
        }
    }
    words.len()
}

/// The words of the text that begins at a place.
pub fn text_words(args: &[u32], k: usize) -> Operands<'_>
    ensures { result ≡ spec.text_words (drop k args.now) }
{
    let words = from(args, k).as_slice();
    Operands::new(&words[..text_len(words)])
}

/// The operands behind the text that begins at a place.
pub fn after_text(args: &[u32], k: usize) -> Operands<'_>
    ensures { result ≡ spec.after_text (drop k args.now) }
{
    let words = from(args, k).as_slice();
    Operands::new(&words[text_len(words)..])
}
