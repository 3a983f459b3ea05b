//! Words among bytes, seen through views.

ghost use Rattle.std.specs.Prelude.{◌≡◌, ◌+◌, ◌*◌, ◌≤◌, drop, length, replicate, take};
ghost use Rattle.gsl_layout.specs.Layout.{Leaf};
ghost use Rattle.gsl_region.specs.Showing.{as_words, with_words};
ghost use Rattle.gsl_words.specs.Words.{put_word, word_at};

use gsl_layout::Laid;
use gsl_views::{View, ViewMut};

/// The word of a number, four bytes each.
pub(crate) fn word_of(bytes: &[u8], leaf: &Laid, number: usize) -> u32
    requires leaf { leaf.now ≡ Leaf 1 }
    requires within { 4 * number + 4 ≤ length bytes.now }
    ensures { result ≡ word_at bytes.now (4 * number) }
{
    let start = 4 * number;
    let end = start + 4;
    View::new(&bytes[start..end], leaf).read_word(0)
}

/// Changes four bytes to those of a word.
fn put(bytes: &mut [u8], leaf: &Laid, word: u32)
    requires leaf { leaf.now ≡ Leaf 1 }
    requires size { length bytes.old ≡ 4 }
    ensures { bytes.new ≡ put_word bytes.old 0 word }
{
    let mut view = ViewMut::new(bytes, leaf);
    view.write_word(0, word);
}

/// Changes the word of a number, four bytes each, and no other.
pub(crate) fn put_word_of(bytes: &mut [u8], leaf: &Laid, number: usize, word: u32)
    requires leaf { leaf.now ≡ Leaf 1 }
    requires within { 4 * number + 4 ≤ length bytes.old }
    ensures { bytes.new ≡ put_word bytes.old (4 * number) word }
{
    let start = 4 * number;
    let end = start + 4;
    put(&mut bytes[start..end], leaf, word);
}

/// Copies words from a place on.
pub(crate) fn load_from(bytes: &[u8], leaf: &Laid, place: usize, into: &mut [u32])
    requires leaf { leaf.now ≡ Leaf 1 }
    requires within { 4 * (place + length into.old) ≤ length bytes.now }
    ensures { into.new ≡ take (length into.old) (drop place (as_words bytes.now)) }
{
    for k in 0..into.len() {
        into[k] = word_of(bytes, leaf, place + k);
    }
}

/// Copies words to a place.
pub(crate) fn store_to(bytes: &mut [u8], leaf: &Laid, place: usize, from: &[u32])
    requires leaf { leaf.now ≡ Leaf 1 }
    requires within { 4 * (place + length from.now) ≤ length bytes.old }
    ensures { as_words bytes.new ≡ with_words (as_words bytes.old) place from.now }
{
    for k in 0..from.len() {
        put_word_of(bytes, leaf, place + k, from[k]);
    }
}

/// Changes so many words from a place on to zero.
pub(crate) fn zero_from(bytes: &mut [u8], leaf: &Laid, place: usize, count: usize)
    requires leaf { leaf.now ≡ Leaf 1 }
    requires within { 4 * (place + count) ≤ length bytes.old }
    ensures { as_words bytes.new ≡ with_words (as_words bytes.old) place (replicate count 0) }
{
    for k in 0..count {
        put_word_of(bytes, leaf, place + k, 0);
    }
}
