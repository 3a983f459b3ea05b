//! Reading a condition from left to right, with a stack of what waits for an operand.

ghost use Rattle.std.specs.Prelude.{◌≡◌, [], ◌∷◌, IfOk, OnOk, MatchOption, reverse};
ghost use Rattle.std.specs.Option.{option_map};
ghost use Rattle.gsl_conditions.specs.Reading as spec;
ghost use Rattle.gsl_conditions.specs.Operators.{prefix_of as prefix_as};

use crate::operator::{Binary, Infix, Prefix, Unary, infix_of, level, prefix_of};
use crate::value::{binary_value, literal, unary_value};
use gsl_base::{Code, Fault, List, Memory, Place, Punct, Text};
use gsl_macros::Hid;
use std::alloc::Global;
use std::marker::Model;

/// What waits for an operand.
#[derive(Clone, Copy, Debug)]
pub enum Entry {
    /// `(`
    Open,
    Before(Unary),
    /// With its place and its left operand.
    Behind(Binary, Place, Result<u32, Fault>),
}

/// Contracts see the innermost first.
#[derive(Drop)]
pub(crate) struct Stack {
    items: List<Entry>,
}

impl Model for Stack {
    ghost use Rattle.std.specs.Prelude.{List as Plain, reverse};
    ghost use Rattle.gsl_conditions.specs.declared.reader.Entry.{Entry as OneEntry};

    ghost Value = { Plain OneEntry };

    ghost view = { λ s. reverse s.items };
}

impl Stack {
    pub fn new(alloc: Global) -> Stack
        ensures { result ≡ [] }
    {
        Stack {
            items: List::new(alloc),
        }
    }

    pub fn push(&mut self, entry: Entry) -> Result<(), Memory>
        ensures { OnOk result (self.new ≡ entry ∷ self.old) }
    {
        self.items.push(entry)
    }

    pub fn pop(&mut self) -> Option<Entry>
        ensures { MatchOption result ((self.old ≡ []) × (self.new ≡ [])) (λ top. self.old ≡ top ∷ self.new) }
    {
        self.items.pop()
    }

    /// Whether the innermost binds its operand at least so tightly.
    fn binds(&self, least: u32) -> bool
        ensures { result ≡ spec.top_binds least self.now }
    {
        match self.items.as_slice() {
            [.., entry] => binds(entry, least),
            [] => false,
        }
    }
}

fn binds(entry: &Entry, least: u32) -> bool
    ensures { result ≡ spec.binds least entry.now }
{
    match entry {
        Entry::Open => false,
        Entry::Before(_) => true,
        Entry::Behind(op, _, _) => least <= level(*op),
    }
}

/// The value of what waited, with its operand.
fn joined(entry: Entry, value: Result<u32, Fault>) -> Result<u32, Fault>
    ensures { result ≡ spec.joined entry value }
{
    match entry {
        Entry::Open => value,
        Entry::Before(op) => unary_value(op, value),
        Entry::Behind(op, place, left) => binary_value(op, place, left, value),
    }
}

/// Joins the operand with all that binds it at least so tightly.
#[tactic(auto, unfolding(crate::specs::Reading::reduced))]
fn reduce(stack: &mut Stack, least: u32, value: Result<u32, Fault>) -> Result<u32, Fault>
    ensures { (stack.new, result) ≡ spec.reduced least stack.old value }
{
    let mut value = value;
    while stack.binds(least) {
        let Some(entry) = stack.pop() else {
            return value;
        };
        value = joined(entry, value);
    }
    value
}

/// A place in a condition.
#[derive(Drop)]
pub(crate) struct Reader {
    stack: Stack,
    /// The operand that was read, where none is due.
    value: Option<Result<u32, Fault>>,
}

impl Reader {
    /// The start of a condition.
    pub fn new(alloc: Global) -> Reader
        ensures { result ≡ spec.start }
    {
        Reader {
            stack: Stack::new(alloc),
            value: None,
        }
    }

    /// Takes a token; none where it may not stand there.
    pub fn step(self, alloc: Global, token: &Hid) -> Result<Option<Reader>, Memory>
        ensures { IfOk result (λ r. r ≡ spec.step self token.now) }
    {
        match self.value {
            None => self.operand(alloc, token),
            Some(value) => self.operator(value, token),
        }
    }

    fn operand(self, alloc: Global, token: &Hid) -> Result<Option<Reader>, Memory>
        ensures { IfOk result (λ r. r ≡ spec.operand self token.now) }
    {
        if let Some(word) = token.spelled.word() {
            return Ok(self.name(token.place, word));
        }
        if let Some(punct) = token.spelled.punct() {
            return self.prefix(punct);
        }
        match literal(alloc, token.place, &token.spelled)? {
            Some(word) => Ok(Some(self.with(Ok(word)))),
            None => Ok(None),
        }
    }

    fn with(self, value: Result<u32, Fault>) -> Reader
        ensures { result ≡ spec.with self value }
    {
        Reader {
            stack: self.stack,
            value: Some(value),
        }
    }

    fn name(self, place: Place, word: &Text) -> Option<Reader>
        ensures { result ≡ spec.name self place word.now }
    {
        if is_defined(word) {
            return None;
        }
        Some(self.with(Err(Fault {
            place,
            code: Code::E0204,
        })))
    }

    /// The reader behind what waits for an operand.
    fn waiting(self, entry: Entry) -> Result<Reader, Memory>
        ensures { IfOk result (λ r. r ≡ spec.waiting self entry) }
    {
        let mut stack = self.stack;
        stack.push(entry)?;
        Ok(Reader { stack, value: None })
    }

    fn prefix(self, punct: Punct) -> Result<Option<Reader>, Memory>
        ensures { IfOk result (λ r. r ≡ spec.prefixed self (prefix_as punct)) }
    {
        match prefix_of(punct) {
            Prefix::Opens => Ok(Some(self.waiting(Entry::Open)?)),
            Prefix::Sign(op) => Ok(Some(self.waiting(Entry::Before(op))?)),
            Prefix::Wrong => Ok(None),
        }
    }

    fn operator(self, value: Result<u32, Fault>, token: &Hid) -> Result<Option<Reader>, Memory>
        ensures { IfOk result (λ r. r ≡ spec.operator self value token.now) }
    {
        let Some(punct) = token.spelled.punct() else {
            return Ok(None);
        };
        match infix_of(punct) {
            Infix::Closes => Ok(self.closed(value)),
            Infix::Joins(op) => Ok(Some(self.behind(op, token.place, value)?)),
            Infix::Wrong => Ok(None),
        }
    }

    fn closed(self, value: Result<u32, Fault>) -> Option<Reader>
        ensures { result ≡ spec.closed self value }
    {
        let mut stack = self.stack;
        let value = reduce(&mut stack, 0, value);
        let Some(Entry::Open) = stack.pop() else {
            return None;
        };
        Some(Reader {
            stack,
            value: Some(value),
        })
    }

    fn behind(self, op: Binary, place: Place, value: Result<u32, Fault>) -> Result<Reader, Memory>
        ensures { IfOk result (λ r. r ≡ spec.behind self op place value) }
    {
        let mut stack = self.stack;
        let left = reduce(&mut stack, level(op), value);
        stack.push(Entry::Behind(op, place, left))?;
        Ok(Reader { stack, value: None })
    }

    /// The value of the condition that ends here; none where it may not end.
    pub fn end(self) -> Option<Result<u32, Fault>>
        ensures { result ≡ spec.end self }
    {
        let value = self.value?;
        let mut stack = self.stack;
        let value = reduce(&mut stack, 0, value);
        match stack.pop() {
            None => Some(value),
            Some(_) => None,
        }
    }
}

/// The word `defined`.
pub(crate) fn is_defined(word: &Text) -> bool
    ensures { result ≡ spec.is_defined word.now }
{
    word.as_str() == "defined"
}
