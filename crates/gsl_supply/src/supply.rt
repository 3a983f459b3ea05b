//! Tokens, drawn one ahead of what is given.

ghost use Rattle.std.specs.Prelude.{◌≡◌, ◌+◌, ◌<◌, ◌^◌, [], length, None, IfOk, OnOk};
ghost use Rattle.gsl_nesting.specs.Passing.{at_start};
ghost use Rattle.gsl_pp.specs.Feeding.{feeds};
ghost use Rattle.gsl_supply.specs.Coming as coming;
ghost use Rattle.gsl_supply.specs.Supplying as spec;

use crate::source::Source;
use gsl_base::{Code, Fault, Memory, Place, Refusal, Token};
use gsl_nesting::{Depth, is_continuation};
use gsl_pp::Feed;
use std::alloc::Global;

/// The tokens of a list and then those of a feed, as the grammar is asked of them.
#[derive(Drop)]
pub struct Supply<'a> {
    source: Source<'a>,
    /// A token that was drawn and not given: how deep it nests shows when the next one is drawn.
    held: Option<Token>,
    /// The fault of the feed, once it was met.
    fault: Option<Fault>,
    /// Behind the tokens that were given, unless the next one nests too deeply.
    nesting: Depth,
    /// Where the one stands that does.
    place: Place,
    /// How many tokens were given.
    count: usize,
}

impl<'a> Supply<'a> {
    /// The tokens of a list.
    pub fn of_list(alloc: Global, tokens: &'a [Token]) -> Result<Supply<'a>, Memory>
        ensures comes { IfOk result (λ s. spec.comes s ≡ coming.seen at_start (record { tokens = tokens.now; fault = None })) }
        ensures count { IfOk result (λ s. s.count ≡ 0) }
    {
        Supply::of(alloc, tokens, Feed::ended(alloc))
    }

    /// The tokens of a feed.
    pub fn of_feed(alloc: Global, feed: Feed) -> Result<Supply<'a>, Memory>
        ensures comes { IfOk result (λ s. spec.comes s ≡ coming.seen at_start (coming.live_in (feeds feed))) }
        ensures count { IfOk result (λ s. s.count ≡ 0) }
    {
        Supply::of(alloc, &[], feed)
    }

    fn of(alloc: Global, listed: &'a [Token], feed: Feed) -> Result<Supply<'a>, Memory>
        ensures comes { IfOk result (λ s. spec.comes s ≡ coming.seen at_start (spec.behind_all listed.now (coming.live_in (feeds feed)))) }
        ensures count { IfOk result (λ s. s.count ≡ 0) }
    {
        let mut supply = Supply {
            source: Source {
                alloc,
                listed,
                feed,
            },
            held: None,
            fault: None,
            nesting: Depth::new(alloc),
            place: Place { unit: 0, line: 0 },
            count: 0,
        };
        supply.refill()?;
        Ok(supply)
    }

    /// Draws the token behind those that were drawn, where there is one.
    fn refill(&mut self) -> Result<(), Memory>
        ensures waits { OnOk result (spec.waits self.new.held self.new.fault (spec.undrawn self.new.source) ≡ spec.unless self.old.fault (spec.undrawn self.old.source)) }
        ensures same { (self.new.nesting ≡ self.old.nesting) × (self.new.place ≡ self.old.place) × (self.new.count ≡ self.old.count) }
    {
        self.held = None;
        if self.fault.is_some() {
            return Ok(());
        }
        match self.source.draw() {
            Ok(token) => self.held = token,
            Err(Refusal::Source(fault)) => self.fault = Some(fault),
            Err(Refusal::Memory) => return Err(Memory),
        }
        Ok(())
    }

    /// The next token, or none where no more are given.
    pub fn next(&mut self) -> Result<Option<Token>, Memory>
        ensures { spec.Given result self.old self.new }
    {
        if !self.nesting.is_within() {
            return Ok(None);
        }
        let Some(token) = self.held.take() else {
            return Ok(None);
        };
        self.refill()?;
        self.nesting.pass(&token.kind, goes_on(&self.held))?;
        if !self.nesting.is_within() {
            self.place = token.place;
            return Ok(None);
        }
        self.count = one_more(self.count)?;
        Ok(Some(token))
    }

    /// The fault that goes before any of the grammar's, if there is one. All of the tokens are drawn for it.
    pub fn last_fault(self) -> Result<Option<Fault>, Memory>
        ensures fault { IfOk result (λ fault. fault ≡ (spec.comes self.entry).fault) }
        ensures count { OnOk result (self.entry.count + length (spec.comes self.entry).tokens < 2 ^ 64) }
    {
        let mut supply = self;
        while let Some(_) = supply.next()? {}
        fits(supply.count);
        supply.end()
    }

    /// The fault, where no more tokens are given.
    fn end(&mut self) -> Result<Option<Fault>, Memory>
        requires { spec.IsSpent self.old }
        ensures { IfOk result (λ fault. fault ≡ (spec.comes self.old).fault) }
    {
        if let Some(fault) = self.fault {
            return Ok(Some(fault));
        }
        match self.source.last_fault()? {
            Some(fault) => Ok(Some(fault)),
            None => Ok(depth_fault(&self.nesting, self.place)),
        }
    }
}

#[tactic(auto, using(crate::proofs::Supplied::depth_within, crate::proofs::Supplied::depth_beyond))]
fn depth_fault(nesting: &Depth, place: Place) -> Option<Fault>
    ensures { result ≡ spec.depth_fault nesting.now place }
{
    if nesting.is_within() {
        return None;
    }
    Some(Fault {
        place,
        code: Code::E0902,
    })
}

/// Whether the statement goes on with this token, where there is one.
fn goes_on(token: &Option<Token>) -> bool
    ensures { result ≡ spec.goes_on_with token.now }
{
    match token {
        Some(token) => is_continuation(&token.kind),
        None => false,
    }
}

fn fits(count: usize)
    ensures { count < 2 ^ 64 }
{
    let _ = count;
}

/// No unit has so many tokens that they cannot be counted.
fn one_more(count: usize) -> Result<usize, Memory>
    ensures { IfOk result (λ n. n ≡ count + 1) }
{
    count.checked_add(1).ok_or(Memory)
}
