//! Tokens that are still to be looked at: a stack of those that replacements put, above the rest of the segment.

ghost use Rattle.std.specs.Prelude.{◌≡◌, [], ◌∷◌, ◌++◌, length, None, IfOk, OnOk, MatchOption, is_some, map};
ghost use Rattle.gsl_macros.specs.Expanding as spec;
ghost use Rattle.gsl_macros.specs.Spelling.{mark_of as mark_in, word_of};
ghost use Rattle.gsl_macros.specs.Steps as steps;

use crate::hides::Hides;
use crate::spelled::{Mark, Spelled, mark_of};
use crate::table::Table;
use crate::unread::Unread;
use gsl_base::{List, Memory, Place, Raw, RawKind};
use std::alloc::Global;
use std::marker::Model;

/// A token with the macros that it hides.
#[derive(Drop)]
pub struct Hid {
    pub spelled: Spelled,
    pub place: Place,
    pub hides: Hides,
    /// Whether it stands so in the source, and was not counted yet.
    pub fresh: bool,
}

impl Hid {
    /// A token as it stands in the source.
    fn fresh(raw: Raw) -> Hid
        ensures { result ≡ spec.fresh raw }
    {
        Hid {
            spelled: Spelled::of(raw.kind),
            place: raw.place,
            hides: Hides::none(),
            fresh: true,
        }
    }

    /// The same token once more.
    pub fn again(&self, alloc: Global) -> Result<Hid, Memory>
        ensures { IfOk result (λ t. t ≡ self.now) }
    {
        Ok(Hid {
            spelled: self.spelled.again(alloc)?,
            place: self.place,
            hides: self.hides.again()?,
            fresh: self.fresh,
        })
    }

    /// The token, once it is counted.
    pub fn settled(self) -> Hid
        ensures { result ≡ spec.settled self }
    {
        Hid {
            fresh: false,
            ..self
        }
    }
}

/// Contracts see the tokens in the order in which they are taken.
#[derive(Drop)]
pub struct Stream {
    pending: List<Hid>,
    rest: Unread,
}

impl Model for Stream {
    ghost use Rattle.std.specs.Prelude.{List as Plain, ◌++◌, reverse, map};
    ghost use Rattle.gsl_macros.specs.declared.stream.Hid.{Hid as OneHid};
    ghost use Rattle.gsl_macros.specs.Expanding.{fresh};

    ghost Value = { Plain OneHid };

    ghost view = { λ s. reverse s.pending ++ map fresh s.rest };
}

impl Stream {
    /// The tokens of a segment.
    pub fn new(alloc: Global, rest: Unread) -> Stream
        ensures { result ≡ map spec.fresh rest }
    {
        Stream {
            pending: List::new(alloc),
            rest,
        }
    }

    /// A token of the source, and the tokens of a segment behind it.
    pub fn begun(alloc: Global, first: Raw, rest: Unread) -> Result<Stream, Memory>
        ensures { IfOk result (λ s. s ≡ map spec.fresh (first ∷ rest)) }
    {
        let mut pending = List::new(alloc);
        pending.push(Hid::fresh(first))?;
        Ok(Stream { pending, rest })
    }

    /// Takes the first token.
    pub fn take(&mut self) -> Option<Hid>
        ensures { MatchOption result ((self.old ≡ []) × (self.new ≡ [])) (λ first. self.old ≡ first ∷ self.new) }
    {
        match self.pending.pop() {
            Some(token) => Some(token),
            None => {
                let raw = self.rest.take()?;
                Some(Hid::fresh(raw))
            }
        }
    }

    /// Takes the first token where it stands so in the source and names no macro.
    #[tactic(auto, using(crate::proofs::Drawn::plain_names))]
    pub fn take_plain(&mut self, table: &Table) -> Option<Raw>
        ensures { MatchOption result (self.new ≡ self.old) (λ raw. (self.old ≡ spec.fresh raw ∷ self.new) × (spec.named table.now (spec.fresh raw) ≡ None)) }
    {
        if !self.pending.is_empty() {
            return None;
        }
        if !is_plain(&self.rest, table) {
            return None;
        }
        self.rest.take()
    }

    /// Puts a token in front.
    pub fn push(&mut self, token: Hid) -> Result<(), Memory>
        ensures { OnOk result (self.new ≡ token ∷ self.old) }
    {
        self.pending.push(token)
    }

    /// Whether the next token is `(`.
    pub fn opens(&self) -> bool
        ensures { result ≡ spec.opens self.now }
    {
        match self.pending.as_slice() {
            [.., token] => is_open(token.spelled.kind()),
            [] => opens_raw(&self.rest),
        }
    }

    /// Puts tokens in front.
    pub fn put(&mut self, tokens: List<Hid>) -> Result<(), Memory>
        ensures { OnOk result (self.new ≡ tokens ++ self.old) }
    {
        let mut tokens = tokens;
        while let Some(token) = tokens.pop() {
            self.push(token)?;
        }
        Ok(())
    }

    /// The tokens of a list.
    pub fn of(alloc: Global, tokens: List<Hid>) -> Result<Stream, Memory>
        ensures { IfOk result (λ s. s ≡ tokens) }
    {
        let mut stream = Stream::new(alloc, Unread::none(alloc));
        stream.put(tokens)?;
        Ok(stream)
    }
}

/// The same tokens once more.
pub(crate) fn copied(alloc: Global, tokens: &[Hid]) -> Result<List<Hid>, Memory>
    ensures { IfOk result (λ l. l ≡ tokens.now) }
{
    let mut copy = List::new(alloc);
    let mut rest = tokens;
    while let [token, more @ ..] = rest {
        copy.push(token.again(alloc)?)?;
        rest = more;
    }
    Ok(copy)
}

fn is_open(kind: &RawKind) -> bool
    ensures { result ≡ spec.is_open (mark_in kind.now) }
{
    matches!(mark_of(kind), Mark::Opens)
}

/// Whether the next token names no macro.
fn is_plain(rest: &Unread, table: &Table) -> bool
    ensures { result ≡ steps.is_plain table.now rest.now }
{
    match rest.first() {
        Some(raw) => !is_named(table, &raw.kind),
        None => false,
    }
}

fn is_named(table: &Table, kind: &RawKind) -> bool
    ensures { result ≡ is_some (spec.named_by table.now [] (word_of kind.now)) }
{
    match kind {
        RawKind::Word(name) => table.find(name).is_some(),
        _ => false,
    }
}

fn opens_raw(rest: &Unread) -> bool
    ensures { result ≡ spec.opens (map spec.fresh rest.now) }
{
    match rest.first() {
        Some(raw) => is_open(&raw.kind),
        None => false,
    }
}
