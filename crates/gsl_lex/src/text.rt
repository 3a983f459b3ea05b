//! The text of a source file, read from its bytes as they stand: a line end of two bytes counts once,
//! and a backslash directly before a line end vanishes with it.

ghost use Rattle.std.specs.Prelude.{◌≡◌, ◌+◌, ◌<◌, ◌≤◌, ◌^◌, [], ◌∷◌, length, MatchOption};
ghost use Rattle.std.specs.Option.{option_map};
ghost use Rattle.gsl_lex.specs.Lines as spec;
ghost use Rattle.gsl_lex.specs.Reading.{next_of};

use std::marker::Model;

/// A byte of a text, and the physical line that it stands on.
#[derive(Clone, Copy, Debug, PartialEq, Eq)]
pub struct Char {
    pub byte: u8,
    pub line: usize,
}

/// A place in a source file. Contracts see it as the text from there on.
#[derive(Debug, Drop)]
pub struct Cursor<'a> {
    rest: &'a [u8],
    line: usize,
}

impl<'a> Model for Cursor<'a> {
    ghost use Rattle.std.specs.Prelude.{List, ◌+◌, ◌^◌, ◌≤◌, length};
    ghost use Rattle.gsl_lex.specs.declared.text.Char.{Char as OneChar};
    ghost use Rattle.gsl_lex.specs.Lines.{text_from};

    ghost Value = { List OneChar };

    ghost view = { λ c. text_from c.line c.rest.now };

    ghost invariant = { λ c. c.line + length c.rest.now ≤ 2 ^ 32 };
}

impl<'a> Cursor<'a> {
    /// The start of a source file.
    pub fn new(bytes: &'a [u8]) -> Cursor<'a>
        requires { length bytes.now < 2 ^ 32 }
        ensures { result ≡ spec.text_of bytes.now }
    {
        Cursor::at(bytes, 1)
    }

    /// The byte here and the place after it, or `None` at the end.
    pub fn step(&self) -> Option<(Char, Cursor<'a>)>
        ensures { MatchOption result (self.now ≡ []) (λ r. (self.now ≡ r.0 ∷ r.1) × (r.0.line < 2 ^ 32)) }
    {
        match self.rest {
            [byte, after @ ..] if is_plain(*byte) => Some((
                Char {
                    byte: *byte,
                    line: self.line,
                },
                Cursor::at(after, self.line),
            )),
            _ => self.step_joined(),
        }
    }

    /// The same where the byte may be a line end, or a backslash before one.
    fn step_joined(&self) -> Option<(Char, Cursor<'a>)>
        ensures { MatchOption result (self.now ≡ []) (λ r. (self.now ≡ r.0 ∷ r.1) × (r.0.line < 2 ^ 32)) }
    {
        let (rest, line) = self.unjoined();
        first_at(rest, line)
    }

    /// This place once more.
    pub fn again(&self) -> Cursor<'a>
        ensures { result ≡ self.now }
    {
        Cursor {
            rest: self.rest,
            line: self.line,
        }
    }

    /// The byte here, or 0 at the end.
    pub fn next_byte(&self) -> u8
        ensures { result ≡ next_of self.now }
    {
        match self.rest {
            [byte, ..] if is_plain(*byte) => *byte,
            _ => self.next_joined(),
        }
    }

    /// The same where the byte may be a line end, or a backslash before one.
    fn next_joined(&self) -> u8
        ensures { result ≡ next_of self.now }
    {
        match self.step_joined() {
            Some((here, _)) => here.byte,
            None => 0,
        }
    }

    /// The bytes from here on without the joined line ends in front, and the line that they stand on.
    fn unjoined(&self) -> (&'a [u8], usize)
        ensures text { self.now ≡ spec.text_from result.1 result.0.now }
        ensures first { spec.after_join result.0.now ≡ None }
        ensures room { result.1 + length result.0.now ≤ 2 ^ 32 }
    {
        let mut rest = self.rest;
        let mut line = self.line;
        while let Some(after) = after_join(rest) {
            rest = after;
            line += 1;
        }
        (rest, line)
    }

    fn at(rest: &'a [u8], line: usize) -> Cursor<'a>
        requires { line + length rest.now ≤ 2 ^ 32 }
        ensures { result ≡ spec.text_from line rest.now }
    {
        Cursor { rest, line }
    }
}

/// The first byte of a text and the place after it, where no joined line end stands in front.
fn first_at(bytes: &[u8], line: usize) -> Option<(Char, Cursor)>
    requires first { spec.after_join bytes.now ≡ None }
    requires room { line + length bytes.now ≤ 2 ^ 32 }
    ensures { MatchOption result (spec.text_from line bytes.now ≡ []) (λ r. (spec.text_from line bytes.now ≡ r.0 ∷ r.1) × (r.0.line < 2 ^ 32)) }
{
    let [byte, after @ ..] = bytes else {
        return None;
    };
    match end_len(bytes) {
        0 => Some((Char { byte: *byte, line }, Cursor::at(after, line))),
        end => Some((
            Char { byte: b'\n', line },
            Cursor::at(&bytes[end..], line + 1),
        )),
    }
}

/// Whether the byte is no line end and no backslash.
fn is_plain(byte: u8) -> bool
    ensures { result ≡ spec.is_plain byte }
{
    byte != b'\\' && byte != b'\r' && byte != b'\n'
}

fn is_end(byte: u8) -> bool
    ensures { result ≡ spec.is_end byte }
{
    byte == b'\r' || byte == b'\n'
}

/// Whether two bytes are one line end.
fn is_pair(first: u8, second: u8) -> bool
    ensures { result ≡ spec.is_pair first second }
{
    (first == b'\r' && second == b'\n') || (first == b'\n' && second == b'\r')
}

/// How many bytes the line end has that the bytes begin with, and 0 where they begin with none.
fn end_len(bytes: &[u8]) -> usize
    ensures value { result ≡ spec.end_len bytes.now }
    ensures within { result ≤ length bytes.now }
{
    match bytes {
        [first, second, ..] if is_pair(*first, *second) => 2,
        [first, ..] if is_end(*first) => 1,
        _ => 0,
    }
}

/// The bytes after a backslash and the line end directly behind it, if they begin so.
fn after_join(bytes: &[u8]) -> Option<&[u8]>
    ensures { option_map (λ rest. rest.now) result ≡ spec.after_join bytes.now }
{
    let [b'\\', after @ ..] = bytes else {
        return None;
    };
    match end_len(after) {
        0 => None,
        end => Some(&after[end..]),
    }
}
