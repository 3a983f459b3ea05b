//! The words of a line, one by one.

ghost use Rattle.std.specs.Prelude.{◌≡◌, ◌≤◌, ◌<◌, false, length, drop, slice_index, is_some, IfSome};
ghost use Rattle.std.specs.List.{prefix_len};
ghost use Rattle.gsl_asm.specs.Words as spec;
ghost use Rattle.gsl_asm.specs.Escapes as escapes;
ghost use Rattle.gsl_asm.specs.Splitting as splitting;
ghost use Rattle.gsl_asm.specs.Nexts.{NextIs, IsShorter};

use crate::chars::{Chars, Raw, raw_len};
use crate::word::{Next, Word};
use std::marker::Model;

/// The words of a line that are still to come. Contracts see the list of them.
#[derive(Drop)]
pub struct Line<'a> {
    rest: &'a [u8],
}

impl<'a> Model for Line<'a> {
    ghost use Rattle.std.specs.Prelude.{List, IsSome};
    ghost use Rattle.gsl_asm.specs.declared.word.Word.{Word as OneWord};

    ghost Value = { List OneWord };

    ghost use Rattle.gsl_asm.specs.Splitting.{words_of, words_in};

    ghost view = { λ line. words_in (words_of line.rest.now) };

    ghost invariant = { λ line. IsSome (words_of line.rest.now) };
}

impl<'a> Line<'a> {
    ghost use Rattle.std.specs.Prelude.{[], ◌∷◌, MatchOption};
    ghost use Rattle.std.specs.Option.{option_map};
    ghost use Rattle.gsl_asm.specs.Splitting.{words_of};

    /// The words of a line, if it spells some.
    pub fn new(rest: &'a [u8]) -> Option<Line<'a>>
        ensures { result ≡ words_of rest.now }
    {
        if !are_words(rest) {
            return None;
        }
        Some(Line { rest })
    }

    /// Takes the next word.
    pub fn next(&mut self) -> Option<Word<'a>>
        ensures { MatchOption result (self.old ≡ []) (λ word. self.old ≡ word ∷ self.new) }
    {
        let (next, rest) = next_of(skip_blanks(self.rest));
        match next {
            Next::Word(word) => {
                self.rest = rest;
                Some(word)
            }
            Next::End => None,
            Next::Bad => None,
        }
    }
}

/// Whether bytes spell words.
fn are_words(bytes: &[u8]) -> bool
    ensures { result ≡ is_some (splitting.words_of bytes.now) }
{
    let mut rest = bytes;
    loop {
        let (next, more) = next_of(skip_blanks(rest));
        match next {
            Next::End => return true,
            Next::Bad => return false,
            Next::Word(_) => rest = more,
        }
    }
}

/// Bytes without the blanks that they begin with.
fn skip_blanks(bytes: &[u8]) -> &[u8]
    ensures words { splitting.words_of result.now ≡ splitting.words_of bytes.now }
    ensures fewer { length result.now ≤ length bytes.now }
    ensures first { spec.is_blank (slice_index result.now 0) ≡ false }
{
    let mut rest = bytes;
    while let [byte, more @ ..] = rest {
        if !is_blank(*byte) {
            return rest;
        }
        rest = more;
    }
    rest
}

/// The word that bytes begin with, and what stands behind it. They begin with no blank.
fn next_of(bytes: &[u8]) -> (Next<'_>, &[u8])
    requires { spec.is_blank (slice_index bytes.now 0) ≡ false }
    ensures next { NextIs (splitting.words_of bytes.now) result.0 (splitting.words_of result.1.now) }
    ensures shorter { IsShorter result.0 (length result.1.now) (length bytes.now) }
{
    if bytes.is_empty() {
        return (Next::End, bytes);
    }
    if bytes[0] == b';' {
        return (Next::End, bytes);
    }
    match word_at(bytes) {
        None => (Next::Bad, bytes),
        Some((word, len)) => (Next::Word(word), &bytes[len..]),
    }
}

/// The word that bytes begin with, and how many of them it takes.
#[tactic(auto, unfolding(crate::specs::Splitting::word_at))]
fn word_at(bytes: &[u8]) -> Option<(Word<'_>, usize)>
    requires { 0 < length bytes.now }
    ensures value { result ≡ splitting.word_at bytes.now }
    ensures some { IfSome result (λ found. 1 ≤ found.1) }
    ensures within { IfSome result (λ found. found.1 ≤ length bytes.now) }
{
    if bytes[0] == b'"' {
        return string_at(bytes);
    }
    let len = 1 + plain_len(&bytes[1..]);
    if !ends(&bytes[len..]) {
        return None;
    }
    let word = Word::Plain(Chars::new(&bytes[..len]));
    Some((word, len))
}

/// The string that bytes begin with, and how many of them it takes.
fn string_at(bytes: &[u8]) -> Option<(Word<'_>, usize)>
    requires { 0 < length bytes.now }
    ensures value { result ≡ splitting.string_at bytes.now (escapes.raw_len false (drop 1 bytes.now)) }
    ensures some { IfSome result (λ found. 1 ≤ found.1) }
    ensures within { IfSome result (λ found. found.1 ≤ length bytes.now) }
{
    let rest = &bytes[1..];
    let len = raw_len(rest)?;
    if !ends(&bytes[len + 2..]) {
        return None;
    }
    let word = Word::Quoted(Raw::new(&rest[..len]));
    Some((word, len + 2))
}

fn is_blank(byte: u8) -> bool
    ensures { result ≡ spec.is_blank byte }
{
    byte == b' ' || byte == b'\t'
}

fn is_plain(byte: u8) -> bool
    ensures { result ≡ spec.is_plain byte }
{
    !(is_blank(byte) || byte == b';' || byte == b'"')
}

/// Whether a word may end before these bytes.
fn ends(bytes: &[u8]) -> bool
    ensures { result ≡ spec.ends bytes.now }
{
    match bytes {
        [] => true,
        [byte, ..] => is_blank(*byte) || *byte == b';',
    }
}

/// How many bytes of a plain word these begin with.
fn plain_len(bytes: &[u8]) -> usize
    ensures value { result ≡ prefix_len spec.is_plain bytes.now }
    ensures within { result ≤ length bytes.now }
{
    bytes.iter().take_while(|byte| is_plain(**byte)).count()
}
