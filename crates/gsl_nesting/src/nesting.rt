//! The limit on nesting.

ghost use Rattle.std.specs.Prelude.{◌≡◌, ◌≤◌, ◌<◌, Some, IfOk, OnOk, is_some};
ghost use Rattle.std.specs.Option.{option_map};
ghost use Rattle.gsl_base.specs.declared.token.Token.{Token as OneToken};
ghost use Rattle.gsl_syntax.specs.Nesting as spec;
ghost use Rattle.gsl_nesting.specs.Passing as passing;
ghost use Rattle.gsl_nesting.specs.Walking.{counters, Holds};

use crate::stack::Stack;
use gsl_base::{Key, Kind, Memory, Place, Punct, Token};
use gsl_syntax::Counter;
use std::alloc::Global;
use std::marker::Model;

const LIMIT: u32 = 256;

fn fresh(list: bool) -> Counter
    ensures { result ≡ spec.fresh list }
{
    Counter {
        value: 0,
        choices: 0,
        words: 0,
        list,
    }
}

/// The counters on the way through the tokens, and their weight.
#[derive(Drop)]
pub(crate) struct Walk {
    pub top: Counter,
    pub below: Stack,
    pub weight: u32,
}

impl Walk {
    fn new(alloc: Global) -> Walk
        ensures counted { counters result ≡ spec.at_first }
        ensures holds { Holds result }
    {
        Walk {
            top: fresh(false),
            below: Stack::new(alloc),
            weight: 0,
        }
    }

    fn add(&mut self)
        requires holds { Holds self.old }
        requires within { self.old.weight ≤ 256 }
        ensures counted { counters self.new ≡ spec.add (counters self.old) }
        ensures holds { Holds self.new }
    {
        self.top.value += 1;
        self.weight += 1;
    }

    fn add_word(&mut self)
        requires holds { Holds self.old }
        requires within { self.old.weight ≤ 256 }
        ensures counted { counters self.new ≡ spec.add_word (counters self.old) }
        ensures holds { Holds self.new }
    {
        self.add();
        self.top.words += 1;
    }

    fn open_choice(&mut self)
        requires holds { Holds self.old }
        requires within { self.old.weight ≤ 256 }
        ensures counted { counters self.new ≡ spec.open_choice (counters self.old) }
        ensures holds { Holds self.new }
    {
        self.add();
        self.top.choices += 1;
    }

    fn close_choice(&mut self)
        requires holds { Holds self.old }
        ensures counted { counters self.new ≡ spec.close_choice (counters self.old) }
        ensures holds { Holds self.new }
        ensures weight { self.new.weight ≡ self.old.weight }
    {
        self.top.choices = self.top.choices.saturating_sub(1);
    }

    fn clear(&mut self)
        requires holds { Holds self.old }
        ensures counted { counters self.new ≡ spec.clear (counters self.old) }
        ensures holds { Holds self.new }
        ensures weight { self.new.weight ≤ self.old.weight }
    {
        self.weight -= self.top.value;
        self.top = fresh(self.top.list);
    }

    fn separate(&mut self)
        requires holds { Holds self.old }
        ensures counted { counters self.new ≡ spec.separate (counters self.old) }
        ensures holds { Holds self.new }
    {
        if self.top.choices == 0 {
            self.weight -= self.top.value - self.top.words;
            self.top.value = self.top.words;
        }
    }

    fn push(&mut self, list: bool) -> Result<(), Memory>
        requires holds { Holds self.old }
        requires within { self.old.weight ≤ 256 }
        ensures counted { OnOk result (counters self.new ≡ spec.push list (counters self.old)) }
        ensures holds { Holds self.new }
    {
        self.below.push(self.top)?;
        self.top = fresh(list);
        self.weight += 1;
        Ok(())
    }

    fn pop(&mut self)
        requires holds { Holds self.old }
        ensures counted { counters self.new ≡ spec.pop (counters self.old) }
        ensures holds { Holds self.new }
        ensures weight { self.new.weight ≤ self.old.weight }
    {
        if let Some(top) = self.below.pop() {
            self.weight -= self.top.value;
            self.weight -= 1;
            self.top = top;
        }
    }

    fn end_statement(&mut self, on: bool)
        requires holds { Holds self.old }
        ensures counted { counters self.new ≡ spec.end_statement on (counters self.old) }
        ensures holds { Holds self.new }
    {
        if !on {
            self.clear();
        }
    }

    fn close_brace(&mut self, on: bool)
        requires holds { Holds self.old }
        ensures counted { counters self.new ≡ spec.close_brace on (counters self.old) }
        ensures holds { Holds self.new }
    {
        let list = self.top.list && !self.below.is_empty();
        self.pop();
        if !list {
            self.end_statement(on);
        }
    }

    fn punct(&mut self, list: bool, on: bool, punct: Punct) -> Result<(), Memory>
        requires holds { Holds self.old }
        requires within { self.old.weight ≤ 256 }
        ensures counted { OnOk result (counters self.new ≡ spec.counted_punct list on punct (counters self.old)) }
        ensures holds { Holds self.new }
    {
        match punct {
            Punct::LeftParen | Punct::LeftBracket => self.push(false)?,
            Punct::LeftBrace => self.push(list)?,
            Punct::RightParen | Punct::RightBracket => {
                self.pop();
                self.add();
            }
            Punct::RightBrace => self.close_brace(on),
            Punct::Semicolon => self.end_statement(on),
            Punct::Question => self.open_choice(),
            Punct::Colon => self.close_choice(),
            Punct::Comma => self.separate(),
            _ => self.add(),
        }
        Ok(())
    }

    fn key(&mut self, label: bool, key: Key)
        requires holds { Holds self.old }
        requires within { self.old.weight ≤ 256 }
        ensures counted { counters self.new ≡ spec.counted_key label key (counters self.old) }
        ensures holds { Holds self.new }
    {
        match key {
            Key::Case | Key::Default => {
                if label {
                    self.clear();
                }
            }
            Key::If | Key::Else | Key::Do | Key::For | Key::While | Key::Switch => self.add_word(),
            _ => {}
        }
    }

    /// Counts a token between the one before it and the one behind it.
    fn count(&mut self, list: bool, label: bool, on: bool, kind: &Kind) -> Result<(), Memory>
        requires holds { Holds self.old }
        requires within { self.old.weight ≤ 256 }
        ensures counted { OnOk result (counters self.new ≡ spec.counted list label on kind.now (counters self.old)) }
        ensures holds { Holds self.new }
    {
        match kind {
            Kind::Punct(punct) => self.punct(list, on, *punct),
            Kind::Key(key) => {
                self.key(label, *key);
                Ok(())
            }
            _ => Ok(()),
        }
    }
}

fn begins_list(kind: &Kind) -> bool
    ensures { result ≡ spec.begins_list kind.now }
{
    matches!(
        kind,
        Kind::Name(_) | Kind::Punct(Punct::Equal | Punct::Comma)
    )
}

fn before_label(kind: &Kind) -> bool
    ensures { result ≡ spec.before_label kind.now }
{
    match kind {
        Kind::Punct(punct) => matches!(
            punct,
            Punct::LeftBrace | Punct::RightBrace | Punct::Semicolon | Punct::Colon
        ),
        _ => false,
    }
}

/// Whether a token of this kind, directly behind a `;` or a `}`, tells that the statement goes on.
pub fn is_continuation(kind: &Kind) -> bool
    ensures { result ≡ spec.is_continuation kind.now }
{
    matches!(kind, Kind::Key(Key::Else | Key::While))
}

/// How deeply tokens nest, behind those that were passed.
#[derive(Drop)]
pub struct Nesting {
    walk: Walk,
    /// What the token that was passed last tells of the next one.
    list: bool,
    label: bool,
}

impl Model for Nesting {
    ghost use Rattle.std.specs.Prelude.{◌≤◌};
    ghost use Rattle.gsl_nesting.specs.Passing.{Passed};

    ghost Value = { Passed };

    ghost use Rattle.gsl_nesting.specs.Walking.{counters, Holds};

    ghost view = { λ n. record { list = n.list; label = n.label; counters = counters n.walk } };

    ghost invariant = { λ n. Holds n.walk × (n.walk.weight ≤ 256) };
}

/// The same, or nothing once a token nested too deeply; tokens are passed in place.
#[derive(Drop)]
pub struct Depth {
    walk: Walk,
    list: bool,
    label: bool,
}

impl Model for Depth {
    ghost use Rattle.std.specs.Prelude.{Option};
    ghost use Rattle.gsl_nesting.specs.Passing.{Passed, within};
    ghost use Rattle.gsl_nesting.specs.Walking.{counters, Holds};

    ghost Value = { Option Passed };

    ghost view = { λ d. within d.list d.label (counters d.walk) };

    ghost invariant = { λ d. Holds d.walk };
}

impl Depth {
    /// Before the first token.
    pub fn new(alloc: Global) -> Depth
        ensures { result ≡ Some passing.at_start }
    {
        Depth {
            walk: Walk::new(alloc),
            list: false,
            label: false,
        }
    }

    /// Whether no token nested too deeply.
    pub fn is_within(&self) -> bool
        ensures { result ≡ is_some self.now }
    {
        self.walk.weight <= LIMIT
    }

    /// Passes a token of this kind, which another follows that continues a statement or does not.
    pub fn pass(&mut self, kind: &Kind, on: bool) -> Result<(), Memory>
        ensures { OnOk result (self.new ≡ passing.passed_on self.old on kind.now) }
    {
        if self.walk.weight > LIMIT {
            return Ok(());
        }
        self.walk.count(self.list, self.label, on, kind)?;
        self.list = begins_list(kind);
        self.label = before_label(kind);
        Ok(())
    }
}

impl Nesting {
    /// Before the first token.
    pub fn new(alloc: Global) -> Nesting
        ensures { result ≡ passing.at_start }
    {
        Nesting {
            walk: Walk::new(alloc),
            list: false,
            label: false,
        }
    }

    /// Behind a token of this kind, which another follows that continues a statement or does not; none where it
    /// nests too deeply.
    pub fn passed(self, kind: &Kind, on: bool) -> Result<Option<Nesting>, Memory>
        ensures { IfOk result (λ next. next ≡ passing.passed self on kind.now) }
    {
        let Nesting {
            mut walk,
            list,
            label,
        } = self;
        walk.count(list, label, on, kind)?;
        if walk.weight > LIMIT {
            return Ok(None);
        }
        Ok(Some(Nesting {
            walk,
            list: begins_list(kind),
            label: before_label(kind),
        }))
    }
}

/// The place of the first token that is nested too deeply, if there is one.
#[tactic(auto, unfolding(gsl_syntax::specs::Nesting::deep_from, gsl_syntax::specs::Nesting::first_deep))]
pub fn first_deep(alloc: Global, tokens: &[Token]) -> Result<Option<Place>, Memory>
    ensures { IfOk result (λ place. place ≡ option_map (λ (t : OneToken). t.place) (spec.first_deep tokens.now)) }
{
    let mut nesting = Nesting::new(alloc);
    let mut rest = tokens;
    while let [token, more @ ..] = rest {
        match nesting.passed(&token.kind, goes_on(more))? {
            Some(next) => nesting = next,
            None => return Ok(Some(token.place)),
        }
        rest = more;
    }
    Ok(None)
}

fn goes_on(tokens: &[Token]) -> bool
    ensures { result ≡ spec.goes_on tokens.now }
{
    match tokens {
        [] => false,
        [token, ..] => is_continuation(&token.kind),
    }
}
