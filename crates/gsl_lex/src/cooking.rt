//! The live token that a raw token becomes.

ghost use Rattle.std.specs.Prelude.{◌≡◌, ◌<◌, ◌≤◌, ◌^◌, ◌*◌, ◌+◌, List, length};
ghost use Rattle.std.specs.List.{list_any};
ghost use Rattle.gsl_base.specs.Checked.{Gives};
ghost use Rattle.gsl_lex.specs.Cooking as spec;
ghost use Rattle.gsl_lex.specs.Literals as literals;

use crate::tables::{is_refused, key_of};
use gsl_base::{Code, Fault, Kind, Raw, RawKind, Refusal, Text, Token};

/// How many bytes a word has at most.
pub const MAX_WORD_BYTES: usize = 1024;

/// The token that a raw token becomes where it is live, or `Source` with its fault: E0101 for a stray
/// byte, E0104 for a floating literal, E0103 for another number that is no literal below 2^32, E0105 for
/// a refused word, E0106 for a word of more than `MAX_WORD_BYTES`.
#[tactic(auto, unfolding(crate::specs::Cooking::token_of))]
pub fn cook(raw: Raw) -> Result<Token, Refusal>
    ensures { Gives result (spec.token_of raw) }
{
    let place = raw.place;
    match cooked(raw.kind) {
        Ok(kind) => Ok(Token { place, kind }),
        Err(code) => Err(Refusal::Source(Fault { place, code })),
    }
}

fn cooked(kind: RawKind) -> Result<Kind, Code>
    ensures { result ≡ spec.cooked kind }
{
    match kind {
        RawKind::Word(text) => word(text),
        RawKind::Number(text) => number(text.as_str().as_bytes()),
        RawKind::Punct(punct) => Ok(Kind::Punct(punct)),
        RawKind::Stray(_) => Err(Code::E0101),
    }
}

/// A keyword or a name.
fn word(text: Text) -> Result<Kind, Code>
    ensures { result ≡ spec.word text }
{
    let bytes = text.as_str().as_bytes();
    if is_refused(bytes) {
        return Err(Code::E0105);
    }
    if bytes.len() > MAX_WORD_BYTES {
        return Err(Code::E0106);
    }
    match key_of(bytes) {
        Some(key) => Ok(Kind::Key(key)),
        None => Ok(Kind::Name(text)),
    }
}

fn number(text: &[u8]) -> Result<Kind, Code>
    ensures { result ≡ spec.number text.now }
{
    if is_floating(text) {
        return Err(Code::E0104);
    }
    match literal(text) {
        Some(kind) => Ok(kind),
        None => Err(Code::E0103),
    }
}

/// Whether the number begins with `0x` or `0X`.
fn is_hex(text: &[u8]) -> bool
    ensures value { result ≡ literals.is_hex text.now }
{
    match text {
        [b'0', b'x' | b'X', ..] => true,
        _ => false,
    }
}

/// Whether the number is a floating literal.
fn is_floating(text: &[u8]) -> bool
    ensures { result ≡ literals.is_floating text.now }
{
    has_point(text) || (!is_hex(text) && has_mark(text))
}

fn has_point(text: &[u8]) -> bool
    ensures { result ≡ list_any literals.is_point text.now }
{
    text.iter().any(|byte| *byte == b'.')
}

/// Whether `e`, `E`, `f` or `F` stands in the number.
fn has_mark(text: &[u8]) -> bool
    ensures { result ≡ list_any literals.is_mark text.now }
{
    text.iter().any(|byte| *byte == b'e' || *byte == b'E' || *byte == b'f' || *byte == b'F')
}

/// The literal that the number writes, if it writes one.
#[tactic(auto, unfolding(crate::specs::Literals::literal_of))]
fn literal(text: &[u8]) -> Option<Kind>
    ensures { result ≡ literals.literal_of text.now }
{
    let (number, is_unsigned) = split_suffix(text);
    let value = word_of(base_of(number), digits_of(number))?;
    Some(if is_unsigned {
        Kind::Unsigned(value)
    } else {
        Kind::Signed(value)
    })
}

/// The number without the suffix `u` or `U`, and whether it has one.
fn split_suffix(text: &[u8]) -> (&[u8], bool)
    ensures number { result.0.now ≡ literals.without_suffix text.now }
    ensures suffix { result.1 ≡ literals.has_suffix text.now }
{
    match text {
        [number @ .., b'u' | b'U'] => (number, true),
        _ => (text, false),
    }
}

fn base_of(number: &[u8]) -> u32
    ensures value { result ≡ literals.base_of number.now }
    ensures low { 2 ≤ result }
    ensures high { result ≤ 16 }
{
    if is_hex(number) {
        16
    } else if number.starts_with(b"0") {
        8
    } else {
        10
    }
}

fn digits_of(number: &[u8]) -> &[u8]
    ensures { result.now ≡ literals.digits_of number.now }
{
    match number {
        [b'0', b'x' | b'X', digits @ ..] => digits,
        _ => number,
    }
}

/// The value of some digits of the base, if it is below 2^32.
fn word_of(base: u32, digits: &[u8]) -> Option<u32>
    requires low { 2 ≤ base }
    requires high { base ≤ 16 }
    ensures { result ≡ literals.word_of base digits.now }
{
    if digits.is_empty() {
        return None;
    }
    let mut value: u32 = 0;
    for digit in digits {
        let digit = char::from(*digit).to_digit(base)?;
        value = shifted(value, base, digit)?;
    }
    Some(value)
}

/// The value with one more digit, if it is below 2^32.
fn shifted(value: u32, base: u32, digit: u32) -> Option<u32>
    requires base { base ≤ 16 }
    requires digit { digit < 16 }
    ensures { result ≡ literals.if_word (value * base + digit) }
{
    let value = u64::from(value) * u64::from(base) + u64::from(digit);
    if value < 1 << 32 {
        Some(value as u32)
    } else {
        None
    }
}
