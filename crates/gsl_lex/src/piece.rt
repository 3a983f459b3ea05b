//! The piece at the front of a text.

ghost use Rattle.std.specs.Prelude.{◌≡◌, ◌<◌, [], ◌∷◌, ◌++◌, length, map, drop, IfOk, Some, true};
ghost use Rattle.gsl_lex.specs.Bytes as bytes;
ghost use Rattle.gsl_lex.specs.Reading as spec;

use crate::tables::{is_second, one_of, three_of, two_of};
use crate::text::Cursor;
use gsl_base::{Memory, Punct, RawKind, Text};
use std::alloc::Global;

/// The two white spaces that have no escape in a literal.
const VERTICAL_TAB: u8 = 0x0B;

const FORM_FEED: u8 = 0x0C;

/// What a piece of a text is.
#[derive(Debug, Drop)]
pub enum Lexeme {
    LineEnd,
    /// White space or a comment.
    Blank,
    Token(RawKind),
}

/// What a piece is, by the bytes that it begins with.
#[derive(Clone, Copy, Debug)]
pub enum Class {
    LineEnd,
    Space,
    LineComment,
    BlockComment,
    Word,
    Number,
    /// A punctuator or a stray byte.
    Other,
}

/// A rule by which bytes follow each other in a piece.
#[derive(Clone, Copy, Debug)]
pub enum Run {
    Space,
    /// What a line comment takes.
    Line,
    Word,
    /// A number that does not begin with `0x` or `0X`.
    Decimal,
    Hex,
}

/// The piece that begins with this byte, and the place after it, or `None` where it is a comment that
/// is not closed.
#[tactic(auto, unfolding(crate::specs::Reading::read))]
pub fn read<'a>(
    alloc: Global,
    first: u8,
    after: Cursor<'a>,
) -> Result<Option<(Lexeme, Cursor<'a>)>, Memory>
    ensures { IfOk result (λ read. read ≡ spec.read first after.entry) }
{
    match class_of(first, after.next_byte()) {
        Class::LineEnd => Ok(Some((Lexeme::LineEnd, after))),
        Class::Space => Ok(Some((Lexeme::Blank, skip_run(Run::Space, first, after)))),
        Class::LineComment => Ok(Some((Lexeme::Blank, skip_run(Run::Line, first, after)))),
        Class::BlockComment => {
            let Some(rest) = skip_comment(after) else {
                return Ok(None);
            };
            Ok(Some((Lexeme::Blank, rest)))
        }
        Class::Word => {
            let (text, rest) = take_run(alloc, Run::Word, first, after)?;
            Ok(Some((Lexeme::Token(RawKind::Word(text)), rest)))
        }
        Class::Number => {
            let run = number_run(first, after.next_byte());
            let (text, rest) = take_run(alloc, run, first, after)?;
            Ok(Some((Lexeme::Token(RawKind::Number(text)), rest)))
        }
        Class::Other => Ok(Some(mark(first, after))),
    }
}

/// What a piece is that begins with the two bytes; the second is 0 where the text ends.
fn class_of(first: u8, next: u8) -> Class
    ensures { result ≡ spec.class_of first next }
{
    if first == b'\n' {
        Class::LineEnd
    } else if is_space(first) {
        Class::Space
    } else if is_letter(first) {
        Class::Word
    } else if begins_number(first, next) {
        Class::Number
    } else if first == b'/' && next == b'/' {
        Class::LineComment
    } else if first == b'/' && next == b'*' {
        Class::BlockComment
    } else {
        Class::Other
    }
}

fn is_space(byte: u8) -> bool
    ensures { result ≡ bytes.is_space byte }
{
    byte == b' ' || byte == b'\t' || byte == VERTICAL_TAB || byte == FORM_FEED
}

fn is_letter(byte: u8) -> bool
    ensures { result ≡ bytes.is_letter byte }
{
    byte.is_ascii_alphabetic() || byte == b'_'
}

fn is_word_byte(byte: u8) -> bool
    ensures { result ≡ bytes.is_word_byte byte }
{
    byte.is_ascii_alphanumeric() || byte == b'_'
}

fn begins_number(first: u8, next: u8) -> bool
    ensures { result ≡ bytes.begins_number first next }
{
    first.is_ascii_digit() || (first == b'.' && next.is_ascii_digit())
}

/// How a number goes on that begins with the two bytes.
fn number_run(first: u8, next: u8) -> Run
    ensures { result ≡ bytes.number_run first next }
{
    if first == b'0' && (next == b'x' || next == b'X') {
        Run::Hex
    } else {
        Run::Decimal
    }
}

/// Whether a byte may follow another in a run.
fn goes_on(run: Run, before: u8, byte: u8) -> bool
    ensures { result ≡ bytes.goes_on run before byte }
{
    match run {
        Run::Space => is_space(byte),
        Run::Line => byte != b'\n',
        Run::Word => is_word_byte(byte),
        Run::Decimal => {
            let is_signed = (before == b'e' || before == b'E') && (byte == b'+' || byte == b'-');
            is_word_byte(byte) || byte == b'.' || is_signed
        }
        Run::Hex => is_word_byte(byte) || byte == b'.',
    }
}

/// The place after the bytes that go on from `first`.
fn skip_run(run: Run, first: u8, after: Cursor) -> Cursor
    ensures { result ≡ spec.after_run run first after.entry }
{
    let mut before = first;
    let mut cursor = after;
    while let Some((here, rest)) = cursor.step() {
        if !goes_on(run, before, here.byte) {
            break;
        }
        before = here.byte;
        cursor = rest;
    }
    cursor
}

/// The text of `first` and the bytes that go on from it, and the place after them.
fn take_run<'a>(
    alloc: Global,
    run: Run,
    first: u8,
    after: Cursor<'a>,
) -> Result<(Text, Cursor<'a>), Memory>
    requires first { first < 128 }
    requires run { bytes.is_spelled run ≡ true }
    ensures { IfOk result (λ read. read ≡ (first ∷ spec.run_of run first after.entry, spec.after_run run first after.entry)) }
{
    let mut text = Text::new(alloc);
    text.push(char::from(first))?;
    let mut before = first;
    let mut cursor = after;
    while let Some((here, rest)) = cursor.step() {
        if !goes_on(run, before, here.byte) {
            break;
        }
        text.push(char::from(here.byte))?;
        before = here.byte;
        cursor = rest;
    }
    Ok((text, cursor))
}

/// The place after the next `*/` behind `/*`, if there is one.
fn skip_comment(after: Cursor) -> Option<Cursor>
    ensures { result ≡ spec.after_close 0 (drop 1 after.entry) }
{
    let (_, inside) = after.step()?;
    let mut before = 0;
    let mut cursor = inside;
    while let Some((here, rest)) = cursor.step() {
        if before == b'*' && here.byte == b'/' {
            return Some(rest);
        }
        before = here.byte;
        cursor = rest;
    }
    None
}

/// The punctuator, or the stray byte, that a text begins with.
fn mark<'a>(first: u8, after: Cursor<'a>) -> (Lexeme, Cursor<'a>)
    ensures { Some result ≡ spec.mark first after.entry (spec.punct_at first after.entry) }
{
    match punct_at(first, &after) {
        Some((punct, rest)) => (Lexeme::Token(RawKind::Punct(punct)), rest),
        None => (Lexeme::Token(RawKind::Stray(first)), after),
    }
}

/// The longest punctuator that a text begins with, if there is one, and the place after it.
#[tactic(auto, unfolding(crate::specs::Reading::punct_at), using(crate::proofs::Seconds::alone))]
fn punct_at<'a>(first: u8, after: &Cursor<'a>) -> Option<(Punct, Cursor<'a>)>
    ensures { result ≡ spec.punct_at first after.now }
{
    if !is_second(after.next_byte()) {
        return one_at(first, after);
    }
    if let Some(found) = three_at(first, after) {
        return Some(found);
    }
    if let Some(found) = two_at(first, after) {
        return Some(found);
    }
    one_at(first, after)
}

fn three_at<'a>(first: u8, after: &Cursor<'a>) -> Option<(Punct, Cursor<'a>)>
    ensures { result ≡ spec.three_at first after.now }
{
    let (second, rest) = after.step()?;
    let (third, rest) = rest.step()?;
    let punct = three_of(first, second.byte, third.byte)?;
    Some((punct, rest))
}

fn two_at<'a>(first: u8, after: &Cursor<'a>) -> Option<(Punct, Cursor<'a>)>
    ensures { result ≡ spec.two_at first after.now }
{
    let (second, rest) = after.step()?;
    let punct = two_of(first, second.byte)?;
    Some((punct, rest))
}

fn one_at<'a>(first: u8, after: &Cursor<'a>) -> Option<(Punct, Cursor<'a>)>
    ensures { result ≡ spec.one_at first after.now }
{
    let punct = one_of(first)?;
    Some((punct, after.again()))
}
