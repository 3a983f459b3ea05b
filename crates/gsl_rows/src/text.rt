//! From the pieces of a file to its bytes.

use crate::case::{File, Piece};
use gsl_base::{Bytes, Memory};
use std::alloc::Global;

/// The text with `by` wherever `mark` stands.
pub fn filled(alloc: Global, text: &str, mark: &str, by: &str) -> Result<String, Memory> {
    let mut out = String::new(alloc);
    let mut first = true;
    for part in text.split(mark) {
        if !first {
            out.push_str(by)?;
        }
        first = false;
        out.push_str(part)?;
    }
    Ok(out)
}

/// The bytes of words of hexadecimal digits: of eight digits a word, least byte first, else one byte.
pub fn hex(alloc: Global, text: &str) -> Result<Bytes, Memory> {
    let mut out = Bytes::new(alloc);
    for digits in text.split_whitespace() {
        let word = u32::from_str_radix(digits, 16).unwrap_or(0);
        let [a, b, c, d] = word.to_le_bytes();
        if digits.len() == 8 {
            out.extend_from_slice(&[a, b, c, d])?;
        } else {
            out.extend_from_slice(&[a])?;
        }
    }
    Ok(out)
}

/// Puts what a piece stands for.
fn put(alloc: Global, out: &mut Bytes, piece: Piece, text: &str) -> Result<(), Memory> {
    match piece {
        Piece::Line => put_line(out, text),
        Piece::Text => out.extend_from_slice(text.as_bytes()),
        Piece::Bytes => put_hex(alloc, out, text),
        Piece::Words => put_words(out, text),
        Piece::Times => put_times(out, text),
        Piece::Count => put_count(alloc, out, text),
        Piece::Down => put_down(alloc, out, text),
    }
}

fn put_line(out: &mut Bytes, text: &str) -> Result<(), Memory> {
    out.extend_from_slice(text.as_bytes())?;
    out.extend_from_slice(b"\n")
}

fn put_hex(alloc: Global, out: &mut Bytes, text: &str) -> Result<(), Memory> {
    let bytes = hex(alloc, text)?;
    out.extend_from_slice(bytes.as_slice())
}

fn put_words(out: &mut Bytes, text: &str) -> Result<(), Memory> {
    for word in text.split_whitespace() {
        put_line(out, word)?;
    }
    Ok(())
}

/// The number that the text begins with, or 0, and what stands behind the blank behind it.
fn number(text: &str) -> (u32, &str) {
    let (digits, rest) = text.split_once(' ').unwrap_or((text, ""));
    (digits.parse::<u32>().unwrap_or(0), rest)
}

fn put_times(out: &mut Bytes, text: &str) -> Result<(), Memory> {
    let (times, text) = number(text);
    for _ in 0..times {
        out.extend_from_slice(text.as_bytes())?;
    }
    Ok(())
}

fn put_count(alloc: Global, out: &mut Bytes, text: &str) -> Result<(), Memory> {
    let (first, rest) = number(text);
    let (last, text) = number(rest);
    for n in first..=last {
        put_numbered(alloc, out, text, n)?;
    }
    Ok(())
}

fn put_down(alloc: Global, out: &mut Bytes, text: &str) -> Result<(), Memory> {
    let (first, rest) = number(text);
    let (last, text) = number(rest);
    for n in last..=first {
        put_numbered(alloc, out, text, first - (n - last))?;
    }
    Ok(())
}

/// Puts the text with this number, the one before it, and line ends.
fn put_numbered(alloc: Global, out: &mut Bytes, text: &str, n: u32) -> Result<(), Memory> {
    let text = with_number(alloc, text, "<n>", n)?;
    put_before(alloc, out, text.as_str(), n.saturating_sub(1))
}

/// Puts the text with the number before, and line ends.
fn put_before(alloc: Global, out: &mut Bytes, text: &str, before: u32) -> Result<(), Memory> {
    let text = with_number(alloc, text, "<before>", before)?;
    put_ended(alloc, out, text.as_str())
}

fn put_ended(alloc: Global, out: &mut Bytes, text: &str) -> Result<(), Memory> {
    let text = filled(alloc, text, "<end>", "\n")?;
    out.extend_from_slice(text.as_bytes())
}

/// The text with a number wherever the mark stands.
fn with_number(alloc: Global, text: &str, mark: &str, n: u32) -> Result<String, Memory> {
    let digits = format!(in alloc; "{n}")?;
    filled(alloc, text, mark, digits.as_str())
}

/// The bytes of a file, with this alternative.
pub fn bytes_of(alloc: Global, file: &File, each: &str) -> Result<Bytes, Memory> {
    let mut out = Bytes::new(alloc);
    for (piece, text) in &file.pieces {
        put_filled(alloc, &mut out, *piece, text.as_str(), each)?;
    }
    Ok(out)
}

fn put_filled(
    alloc: Global,
    out: &mut Bytes,
    piece: Piece,
    text: &str,
    each: &str,
) -> Result<(), Memory> {
    let text = filled(alloc, text, "<each>", each)?;
    put(alloc, out, piece, text.as_str())
}
