//! Raw tokens that were not read yet.

ghost use Rattle.std.specs.Prelude.{◌≡◌, ◌<◌, ◌≤◌, [], ◌∷◌, length, take, drop, reverse, IfOk, OnOk, MatchOption};

use crate::spelled::copied;
use gsl_base::{Memory, Raw, Raws};
use std::alloc::Global;
use std::marker::Model;
use std::mem::replace;

/// How much room is not worth giving back.
const LITTLE: usize = 4096;

/// Raw tokens, each of which is given up as it is taken, and in time its room too. Contracts see them in the order in which they are
/// taken; the last one comes first in the vector.
#[derive(Drop)]
pub struct Unread {
    items: Vec<Raw>,
}

impl Model for Unread {
    ghost use Rattle.std.specs.Prelude.{List as Plain, reverse};
    ghost use Rattle.gsl_base.specs.declared.token.Raw.{Raw as OneRaw};

    ghost Value = { Plain OneRaw };

    ghost view = { λ u. reverse u.items.items };
}

impl Unread {
    /// No token, which takes no memory.
    pub fn none(alloc: Global) -> Unread
        ensures { result ≡ [] }
    {
        Unread {
            items: Vec::new(alloc),
        }
    }

    /// The tokens of a list, which takes no memory.
    pub fn of(raws: Raws) -> Unread
        ensures { result ≡ raws }
    {
        let mut items = raws.into_vec();
        items.reverse();
        Unread { items }
    }

    /// The tokens of a slice.
    pub fn copy_of(alloc: Global, raws: &[Raw]) -> Result<Unread, Memory>
        ensures { IfOk result (λ u. u ≡ raws.now) }
    {
        let mut list = Raws::new(alloc);
        let mut rest = raws;
        while let [raw, more @ ..] = rest {
            list.push(copy_raw(alloc, raw)?)?;
            rest = more;
        }
        Ok(Unread::of(list))
    }

    /// The tokens from the last to the first.
    pub fn backward(&self) -> &[Raw]
        ensures { reverse result.now ≡ self.now }
    {
        self.items.as_slice()
    }

    /// How many tokens there are.
    pub fn len(&self) -> usize
        ensures { result ≡ length self.now }
    {
        self.items.len()
    }

    /// The first token.
    pub fn first(&self) -> Option<&Raw>
        ensures { MatchOption result (self.now ≡ []) (λ r. self.now ≡ r.now ∷ drop 1 self.now) }
    {
        match self.items.as_slice() {
            [.., raw] => Some(raw),
            [] => None,
        }
    }

    /// Takes the first token.
    pub fn take(&mut self) -> Option<Raw>
        ensures { MatchOption result ((self.old ≡ []) × (self.new ≡ [])) (λ first. self.old ≡ first ∷ self.new) }
    {
        let first = self.items.pop();
        self.give_back();
        first
    }

    /// Gives room back where half of it or more is free.
    fn give_back(&mut self)
        ensures { self.new ≡ self.old }
    {
        let room = self.items.capacity();
        if room > LITTLE {
            if self.items.len() <= room / 2 {
                self.items.shrink_to_fit();
            }
        }
    }

    /// Takes so many tokens.
    pub fn cut(&mut self, count: usize) -> Result<Unread, Memory>
        requires { count ≤ length self.old }
        ensures front { IfOk result (λ u. u ≡ take count self.old) }
        ensures back { OnOk result (self.new ≡ drop count self.old) }
    {
        let behind = self.items.as_slice().len() - count;
        let items = self.items.split_off(behind)?;
        self.give_back();
        Ok(Unread { items })
    }

    /// Takes all tokens, which takes no memory.
    pub fn cut_all(&mut self, alloc: Global) -> Unread
        ensures all { result ≡ self.old }
        ensures none { self.new ≡ [] }
    {
        replace(self, Unread::none(alloc))
    }

    /// Gives up so many tokens.
    pub fn skip(&mut self, count: usize)
        requires { count ≤ length self.old }
        ensures { self.new ≡ drop count self.old }
    {
        let behind = self.items.as_slice().len() - count;
        self.items.truncate(behind);
        self.give_back();
    }

    /// The tokens in a list, which takes no memory.
    pub fn into_raws(self) -> Raws
        ensures { result ≡ self }
    {
        let mut items = self.items;
        items.reverse();
        Raws::from_vec(items)
    }
}

fn copy_raw(alloc: Global, raw: &Raw) -> Result<Raw, Memory>
    ensures { IfOk result (λ copy. copy ≡ raw.now) }
{
    Ok(Raw {
        place: raw.place,
        kind: copied(alloc, &raw.kind)?,
        starts_line: raw.starts_line,
        spaced: raw.spaced,
    })
}
