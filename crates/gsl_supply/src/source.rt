//! Tokens of a list, and then those of a feed.

ghost use Rattle.std.specs.Prelude.{◌≡◌, ◌∷◌, [], IfOk, MatchOption};
ghost use Rattle.gsl_base.specs.declared.token.Token.{Token as OneToken};
ghost use Rattle.gsl_supply.specs.Supplying as spec;

use gsl_base::{Fault, Kind, Memory, Refusal, Text, Token};
use gsl_pp::Feed;
use std::alloc::Global;

#[derive(Drop)]
pub(crate) struct Source<'a> {
    pub alloc: Global,
    pub listed: &'a [Token],
    pub feed: Feed,
}

impl<'a> Source<'a> {
    /// The next token, or the fault that is met in its place.
    pub fn draw(&mut self) -> Result<Option<Token>, Refusal>
        ensures { spec.Drawn result (spec.undrawn self.old) (spec.undrawn self.new) }
    {
        let Some((token, rest)) = first_of(self.listed) else {
            return self.feed.next();
        };
        let token = copied(self.alloc, token)?;
        self.listed = rest;
        Ok(Some(token))
    }

    /// The fault with which the tokens end, if they do. All of them are drawn for it.
    pub fn last_fault(&mut self) -> Result<Option<Fault>, Memory>
        ensures { IfOk result (λ fault. fault ≡ (spec.undrawn self.old).fault) }
    {
        loop {
            match self.draw() {
                Ok(Some(_)) => {}
                Ok(None) => return Ok(None),
                Err(Refusal::Source(fault)) => return Ok(Some(fault)),
                Err(Refusal::Memory) => return Err(Memory),
            }
        }
    }
}

/// The first token, and those behind it.
fn first_of<'a>(tokens: &'a [Token]) -> Option<(&'a Token, &'a [Token])>
    ensures { MatchOption result (tokens.now ≡ []) (λ r. tokens.now ≡ r.0.now ∷ r.1.now) }
{
    let [first, more @ ..] = tokens else {
        return None;
    };
    Some((first, more))
}

fn copied(alloc: Global, token: &Token) -> Result<Token, Memory>
    ensures { IfOk result (λ (t : OneToken). t ≡ token.now) }
{
    let kind = match &token.kind {
        Kind::Name(text) => Kind::Name(Text::from_str(alloc, text.as_str())?),
        Kind::Key(key) => Kind::Key(*key),
        Kind::Signed(word) => Kind::Signed(*word),
        Kind::Unsigned(word) => Kind::Unsigned(*word),
        Kind::Punct(punct) => Kind::Punct(*punct),
    };
    Ok(Token {
        place: token.place,
        kind,
    })
}
