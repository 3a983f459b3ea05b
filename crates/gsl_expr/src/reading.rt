//! A cursor over tokens, with the next two in hand, and what reads a token or two.

ghost use Rattle.std.specs.Prelude.{◌≡◌, ◌∷◌, [], ◌<◌, ◌^◌, IfOk, OnOk, MatchOption};
ghost use Rattle.gsl_expr.specs.InHand as hand;
ghost use Rattle.gsl_expr.specs.Names as names;
ghost use Rattle.gsl_expr.specs.Reading as spec;
ghost use Rattle.gsl_expr.specs.Reading.{Reads, Tokens};

use crate::held::with;
use crate::stop::Stop;
use gsl_base::{Fault, Key, Kind, Memory, Place, Punct, Token};
use gsl_supply::Supply;
use gsl_syntax::Name;
use std::marker::Model;

/// The tokens that are left, which contracts see as their list, with what stays as they are taken.
#[derive(Drop)]
pub struct Cursor<'a> {
    supply: Supply<'a>,
    /// The next token.
    first: Option<Token>,
    /// The one behind it.
    second: Option<Token>,
    /// Where the last one stands that was taken.
    last: Place,
}

impl<'a> Model for Cursor<'a> {
    ghost use Rattle.gsl_expr.specs.InHand.{ahead};
    ghost use Rattle.gsl_expr.specs.Reading.{Ahead};

    ghost Value = { Ahead };

    ghost view = { λ c. ahead c.first c.second c.last c.supply };
}

impl<'a> Cursor<'a> {
    /// Before all of the tokens of a supply.
    pub fn new(supply: Supply<'a>) -> Result<Cursor<'a>, Memory>
        ensures { IfOk result (λ c. c ≡ hand.all_ahead supply.entry) }
    {
        let mut supply = supply;
        let first = draw(&mut supply)?;
        let (second, first) = with(draw(&mut supply), first)?;
        Ok(Cursor {
            supply,
            first,
            second,
            last: Place { unit: 0, line: 1 },
        })
    }

    /// The next token, or none at the end.
    pub fn next(&self) -> Option<&Token>
        ensures { MatchOption result (self.now.left ≡ []) (λ t. (rest : Tokens) × (self.now.left ≡ t.now ∷ rest)) }
    {
        self.first.as_ref()
    }

    /// Whether the next token is this punctuator.
    #[tactic(auto, unfolding(crate::specs::Reading::sees))]
    pub fn sees(&self, punct: Punct) -> bool
        ensures { result ≡ spec.sees punct self.now.left }
    {
        match &self.first {
            Some(token) => is_punct(punct, &token.kind),
            None => false,
        }
    }

    /// Whether this punctuator stands behind the next token.
    #[tactic(auto, unfolding(crate::specs::Reading::sees, crate::specs::Reading::sees_behind))]
    pub fn sees_behind(&self, punct: Punct) -> bool
        ensures { result ≡ spec.sees_behind punct self.now.left }
    {
        if self.first.is_none() {
            return false;
        }
        match &self.second {
            Some(token) => is_punct(punct, &token.kind),
            None => false,
        }
    }

    /// Whether the next token is this keyword.
    #[tactic(auto, unfolding(crate::specs::Reading::sees_key))]
    pub fn sees_key(&self, key: Key) -> bool
        ensures { result ≡ spec.sees_key key self.now.left }
    {
        match &self.first {
            Some(token) => is_key(key, &token.kind),
            None => false,
        }
    }

    /// Whether the next token is a name.
    #[tactic(auto, unfolding(crate::specs::Names::sees_name))]
    pub fn sees_name(&self) -> bool
        ensures { result ≡ names.sees_name self.now.left }
    {
        match &self.first {
            Some(token) => is_name(&token.kind),
            None => false,
        }
    }

    #[tactic(auto, unfolding(crate::specs::InHand::last_place))]
    fn advance(&mut self) -> Result<Option<Token>, Memory>
        ensures { hand.Advances result self.old self.new }
    {
        let Some(token) = self.first.take() else {
            return Ok(None);
        };
        self.first = self.second.take();
        self.second = draw(&mut self.supply)?;
        self.last = token.place;
        Ok(Some(token))
    }

    /// Takes a token, whatever it is.
    pub fn take_one(&mut self) -> Result<Place, Stop>
        ensures { Reads (spec.take_one self.old.left) result self.old self.new }
    {
        match self.advance()? {
            Some(token) => Ok(token.place),
            None => Err(Stop::Bad),
        }
    }

    /// Takes this punctuator.
    #[tactic(auto, unfolding(crate::specs::Reading::expect))]
    pub fn expect(&mut self, punct: Punct) -> Result<Place, Stop>
        ensures { Reads (spec.expect punct self.old.left) result self.old self.new }
    {
        if !self.sees(punct) {
            return Err(Stop::Bad);
        }
        self.take_one()
    }

    /// Takes a name.
    #[tactic(auto, unfolding(crate::specs::Reading::name, crate::specs::Names::sees_name))]
    pub fn name(&mut self) -> Result<Name, Stop>
        ensures { Reads (spec.name self.old.left) result self.old self.new }
    {
        if !self.sees_name() {
            return Err(Stop::Bad);
        }
        match self.advance()? {
            Some(
                Token {
                    place,
                    kind: Kind::Name(text),
                },
            ) => Ok(Name { place, text }),
            _ => Err(Stop::Bad),
        }
    }

    /// Where the next token stands, or the last one where there is none; in line 1 where there was none.
    #[tactic(auto, unfolding(crate::specs::InHand::last_place))]
    pub fn place(&self) -> Place
        ensures { result ≡ hand.place_of_next self.now }
    {
        match &self.first {
            Some(token) => token.place,
            None => self.last,
        }
    }

    /// The fault that goes before any of the grammar's, if there is one. All of the tokens are drawn for it.
    pub fn last_fault(self) -> Result<Option<Fault>, Memory>
        ensures fault { IfOk result (λ fault. fault ≡ self.entry.kept.fault) }
        ensures total { OnOk result (self.entry.kept.total < 2 ^ 64) }
    {
        let Cursor { supply, .. } = self;
        supply.last_fault()
    }
}

fn draw(supply: &mut Supply<'_>) -> Result<Option<Token>, Memory>
    ensures { hand.Draws result supply.old supply.new }
{
    supply.next()
}

fn is_punct(punct: Punct, kind: &Kind) -> bool
    ensures { result ≡ spec.is_punct punct kind.now }
{
    match kind {
        Kind::Punct(found) => *found == punct,
        _ => false,
    }
}

fn is_key(key: Key, kind: &Kind) -> bool
    ensures { result ≡ spec.is_key key kind.now }
{
    match kind {
        Kind::Key(found) => *found == key,
        _ => false,
    }
}

fn is_name(kind: &Kind) -> bool
    ensures { result ≡ names.is_name kind.now }
{
    matches!(kind, Kind::Name(_))
}
