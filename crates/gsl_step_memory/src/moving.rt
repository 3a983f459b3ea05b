//! Words that are moved between slots and variables, where there is room.

ghost use Rattle.std.specs.Prelude.{◌≡◌, ◌+◌, ◌≤◌, drop, length, take, true};
ghost use Rattle.gsl_region.specs.Showing.{with_words};

use gsl_region::Region;
use gsl_slots::Slots;

/// Whether so many words from a place on are among all.
fn has_room(at: u64, count: u64, all: u64) -> bool
    ensures yes { result ≡ true → at + count ≤ all }
    ensures no { at + count ≤ all → result ≡ true }
{
    count <= all && at <= all - count
}

/// Copies so many words of variables to a place among the slots.
fn copy(words: &Region, from: u64, slots: &mut Slots, at: usize, count: usize)
    requires within { from + count ≤ length words.now }
    requires room { at + count ≤ length slots.old }
    ensures { slots.new ≡ with_words slots.old at (take count (drop from words.now)) }
{
    let _all = words.len();
    let _room = slots.len();
    for k in 0..count {
        let word = words.word(from + k as u64);
        slots.put(at + k, word);
    }
}

/// Copies so many words of variables to a place among the slots, if there is room.
pub(crate) fn copy_out(words: &Region, from: u64, slots: &mut Slots, at: u64, count: u64)
    ensures { from + count ≤ length words.now → at + count ≤ length slots.old → slots.new ≡ with_words slots.old at (take count (drop from words.now)) }
{
    let there = has_room(from, count, words.len());
    let room = has_room(at, count, slots.len() as u64);
    if there && room {
        copy(words, from, slots, at as usize, count as usize);
    }
}

/// Copies so many words among the slots to a place among those of variables, if there is room.
pub fn copy_in(slots: &Slots, from: u64, words: &mut Region, at: u64, count: u64)
    ensures { from + count ≤ length slots.now → at + count ≤ length words.old → words.new ≡ with_words words.old at (take count (drop from slots.now)) }
{
    let there = has_room(from, count, slots.len() as u64);
    let room = has_room(at, count, words.len());
    if there && room {
        words.store(at, slots.words(from as usize, count as usize));
    }
}
