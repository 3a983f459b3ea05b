//! Characters of a line.

ghost use Rattle.std.specs.Prelude.{◌≡◌, ◌<◌, false, [], ◌∷◌, length, MatchOption, IfOk, IfSome};
ghost use Rattle.gsl_asm.specs.Escapes as spec;

use crate::step::Step;
use gsl_base::{Bytes, Memory};
use std::alloc::Global;
use std::marker::Model;

/// Characters as they stand. Contracts see the list of their bytes.
#[derive(Drop)]
pub struct Chars<'a> {
    bytes: &'a [u8],
}

impl<'a> Model for Chars<'a> {
    ghost use Rattle.std.specs.Prelude.{List, ℕ};

    ghost Value = { List ℕ };

    ghost view = { λ chars. chars.bytes.now };
}

impl<'a> Chars<'a> {
    /// Lends the bytes.
    pub fn as_slice(&self) -> &'a [u8]
        ensures { result.now ≡ self.now }
    {
        self.bytes
    }

    /// These bytes.
    pub fn new(bytes: &'a [u8]) -> Chars<'a>
        ensures { result ≡ bytes.now }
    {
        Chars { bytes }
    }
}

/// Characters as they stand between quotes. Contracts see the bytes that they stand for.
#[derive(Drop)]
pub struct Raw<'a> {
    bytes: &'a [u8],
}

impl<'a> Model for Raw<'a> {
    ghost use Rattle.std.specs.Prelude.{List, ℕ, false};
    ghost use Rattle.gsl_asm.specs.Escapes.{unescaped};

    ghost Value = { List ℕ };

    ghost view = { λ raw. unescaped false raw.bytes.now };
}

impl<'a> Raw<'a> {
    /// Characters that stand so between quotes.
    pub fn new(bytes: &'a [u8]) -> Raw<'a>
        ensures { result ≡ spec.unescaped false bytes.now }
    {
        Raw { bytes }
    }

    /// The bytes that the characters stand for.
    pub fn bytes(&self, alloc: Global) -> Result<Bytes, Memory>
        ensures { IfOk result (λ bytes. bytes ≡ self.now) }
    {
        let mut out = Bytes::new(alloc);
        let mut rest = self.bytes;
        while let Some((byte, more)) = next_byte(rest) {
            out.push(byte)?;
            rest = more;
        }
        Ok(out)
    }
}

/// The first byte that characters between quotes stand for, and those behind it.
fn next_byte(bytes: &[u8]) -> Option<(u8, &[u8])>
    ensures { MatchOption result (spec.unescaped false bytes.now ≡ []) (λ r. (spec.unescaped false bytes.now ≡ r.0 ∷ spec.unescaped false r.1.now) × (length r.1.now < length bytes.now)) }
{
    if bytes.is_empty() {
        return None;
    }
    if bytes[0] != b'\\' {
        return Some((bytes[0], &bytes[1..]));
    }
    if bytes.len() == 1 {
        return None;
    }
    Some((meant(bytes[1]), &bytes[2..]))
}

/// How many bytes stand before the quote that ends a string.
pub fn raw_len(bytes: &[u8]) -> Option<usize>
    ensures value { result ≡ spec.raw_len false bytes.now }
    ensures within { IfSome result (λ len. len < length bytes.now) }
{
    let mut behind = false;
    for (i, byte) in bytes.iter().enumerate() {
        match step_of(behind, *byte) {
            Step::Ends => return Some(i),
            Step::Breaks => return None,
            Step::Goes(next) => behind = next,
        }
    }
    None
}

/// What a byte between quotes is, by whether a backslash stands before it.
fn step_of(behind: bool, byte: u8) -> Step
    ensures { result ≡ spec.step_of behind byte }
{
    if behind {
        if is_escape(byte) {
            Step::Goes(false)
        } else {
            Step::Breaks
        }
    } else if byte == b'"' {
        Step::Ends
    } else if byte == b'\n' || byte == b'\r' {
        Step::Breaks
    } else {
        Step::Goes(byte == b'\\')
    }
}

/// Whether a byte may stand behind a backslash.
fn is_escape(byte: u8) -> bool
    ensures { result ≡ spec.is_escape byte }
{
    byte == b'"' || byte == b'\\' || byte == b'n' || byte == b'r'
}

/// What it stands for there.
fn meant(byte: u8) -> u8
    ensures { result ≡ spec.meant byte }
{
    match byte {
        b'n' => b'\n',
        b'r' => b'\r',
        _ => byte,
    }
}
