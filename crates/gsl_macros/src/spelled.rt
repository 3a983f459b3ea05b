//! How a token is spelled.

ghost use Rattle.std.specs.Prelude.{◌≡◌, IfOk};
ghost use Rattle.std.specs.Option.{option_map};
ghost use Rattle.gsl_base.specs.Checked.{Gives};
ghost use Rattle.gsl_macros.specs.Spelling as spec;

use gsl_base::{Memory, Place, Punct, Raw, RawKind, Refusal, Text, Token};
use gsl_lex::cook;
use std::alloc::Global;
use std::marker::Model;
use std::rc::Rc;

/// A spelling of the source, or one that the tokens share that a macro puts. Contracts see what it spells.
#[derive(Drop)]
pub struct Spelled {
    shared: Option<Rc<RawKind>>,
    own: RawKind,
}

impl Model for Spelled {
    ghost use Rattle.std.specs.Option.{option_map};
    ghost use Rattle.gsl_base.specs.declared.token.RawKind.{RawKind as OneKind};
    ghost use Rattle.gsl_macros.specs.Spelling.{shared_or};

    ghost Value = { OneKind };

    ghost view = { λ s. shared_or s.own (option_map (λ k. k.value) s.shared) };
}

/// What a token is to the arguments of a use.
#[derive(Clone, Copy, Debug, PartialEq, Eq)]
pub enum Mark {
    Opens,
    Closes,
    Parts,
    Stands,
}

impl Spelled {
    /// A spelling of the source.
    pub fn of(kind: RawKind) -> Spelled
        ensures { result ≡ kind }
    {
        Spelled {
            shared: None,
            own: kind,
        }
    }

    /// A copy of a spelling.
    pub fn copy_of(alloc: Global, kind: &RawKind) -> Result<Spelled, Memory>
        ensures { IfOk result (λ s. s ≡ kind.now) }
    {
        Ok(Spelled::of(copied(alloc, kind)?))
    }

    /// A spelling that is shared.
    pub fn sharing(kind: &Rc<RawKind>) -> Result<Spelled, Memory>
        ensures { IfOk result (λ s. s ≡ kind.now.value) }
    {
        Ok(Spelled {
            shared: Some(kind.clone()?),
            own: RawKind::Stray(0),
        })
    }

    /// A decimal number.
    pub fn made(alloc: Global, number: u32) -> Result<Spelled, Memory>
        ensures { IfOk result (λ s. s ≡ spec.number number) }
    {
        let text = format!(in alloc; "{number}")?;
        Ok(Spelled::of(RawKind::Number(Text::from_string(text))))
    }

    /// The same spelling once more.
    pub fn again(&self, alloc: Global) -> Result<Spelled, Memory>
        ensures { IfOk result (λ s. s ≡ self.now) }
    {
        match &self.shared {
            Some(kind) => Spelled::sharing(kind),
            None => Spelled::copy_of(alloc, &self.own),
        }
    }

    /// What is spelled.
    pub fn kind(&self) -> &RawKind
        ensures { result.now ≡ self.now }
    {
        match &self.shared {
            Some(kind) => kind,
            None => &self.own,
        }
    }

    /// The word, if it is one.
    pub fn word(&self) -> Option<&Text>
        ensures { option_map (λ t. t.now) result ≡ spec.word_of self.now }
    {
        match self.kind() {
            RawKind::Word(text) => Some(text),
            _ => None,
        }
    }

    /// The punctuator, if it is one.
    pub fn punct(&self) -> Option<Punct>
        ensures { result ≡ spec.punct_of self.now }
    {
        punct_of(self.kind())
    }

    /// What it is to the arguments of a use.
    pub fn mark(&self) -> Mark
        ensures { result ≡ spec.mark_of self.now }
    {
        mark_of(self.kind())
    }

    /// The token that it is at a place where it is live, or its fault there: that of `cook`.
    pub fn cook(self, alloc: Global, place: Place) -> Result<Token, Refusal>
        ensures { Gives result (spec.live place self) }
    {
        let kind = self.into_kind(alloc)?;
        cook(Raw {
            place,
            kind,
            starts_line: false,
            spaced: false,
        })
    }

    fn into_kind(self, alloc: Global) -> Result<RawKind, Memory>
        ensures { IfOk result (λ kind. kind ≡ self) }
    {
        match &self.shared {
            Some(kind) => copied(alloc, kind),
            None => Ok(self.own),
        }
    }
}

/// The punctuator, if a kind is one.
fn punct_of(kind: &RawKind) -> Option<Punct>
    ensures { result ≡ spec.punct_of kind.now }
{
    match kind {
        RawKind::Punct(punct) => Some(*punct),
        _ => None,
    }
}

/// What a kind is to the arguments of a use.
pub fn mark_of(kind: &RawKind) -> Mark
    ensures { result ≡ spec.mark_of kind.now }
{
    match punct_of(kind) {
        Some(punct) => punct_mark(punct),
        None => Mark::Stands,
    }
}

fn punct_mark(punct: Punct) -> Mark
    ensures { result ≡ spec.mark_of_punct punct }
{
    match punct {
        Punct::LeftParen => Mark::Opens,
        Punct::RightParen => Mark::Closes,
        Punct::Comma => Mark::Parts,
        _ => Mark::Stands,
    }
}

/// A copy of a kind.
pub(crate) fn copied(alloc: Global, kind: &RawKind) -> Result<RawKind, Memory>
    ensures { IfOk result (λ copy. copy ≡ kind.now) }
{
    Ok(match kind {
        RawKind::Word(text) => RawKind::Word(Text::from_str(alloc, text.as_str())?),
        RawKind::Number(text) => RawKind::Number(Text::from_str(alloc, text.as_str())?),
        RawKind::Punct(punct) => RawKind::Punct(*punct),
        RawKind::Stray(byte) => RawKind::Stray(*byte),
    })
}
