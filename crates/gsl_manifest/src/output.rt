//! The text that shows what a run gave.

ghost use Rattle.std.specs.Prelude.{◌≡◌, ◌++◌, ◌<◌, ◌/◌, ◌%◌, IfOk, OnOk, Bool};
ghost use Rattle.std.specs.List.{flat_map};
ghost use Rattle.gsl_manifest.specs.Listing as spec;
ghost use Rattle.gsl_manifest.specs.Listing.{listing_of};

use gsl_base::{Buffer, Bytes, Comps, List, Located, Memory, Output};
use std::alloc::Global;

/// How many words stand on a line.
const WORDS_A_LINE: usize = 8;

/// The listing of an output: its buffers, then its outputs or that it was discarded.
pub fn listing(alloc: Global, output: &Output) -> Result<Bytes, Memory>
    ensures { IfOk result (λ text. text ≡ listing_of output.now) }
{
    let mut out = Bytes::new(alloc);
    put_buffers(alloc, output.buffers.as_slice(), &mut out)?;
    if output.killed {
        out.extend_from_slice(b"discarded\n")?;
    } else {
        put_outs(alloc, output.outs.as_slice(), &mut out)?;
    }
    Ok(out)
}

fn put_buffers(alloc: Global, buffers: &[Buffer], out: &mut Bytes) -> Result<(), Memory>
    ensures { OnOk result (out.new ≡ out.old ++ flat_map spec.buffer_text buffers.now) }
{
    for buffer in buffers {
        put_buffer(alloc, buffer, out)?;
    }
    Ok(())
}

fn put_buffer(alloc: Global, buffer: &Buffer, out: &mut Bytes) -> Result<(), Memory>
    ensures { OnOk result (out.new ≡ out.old ++ spec.buffer_text buffer.now) }
{
    out.extend_from_slice(b"buffer ")?;
    let set = buffer.set.to_string(alloc)?;
    out.extend_from_slice(set.as_bytes())?;
    out.extend_from_slice(b" ")?;
    let binding = buffer.binding.to_string(alloc)?;
    out.extend_from_slice(binding.as_bytes())?;
    out.extend_from_slice(b"\n")?;
    let (words, left) = cut_words(alloc, buffer.bytes.as_slice())?;
    put_words(words.as_slice(), out)?;
    put_left(left, out)
}

fn put_outs(alloc: Global, outs: &[Located], out: &mut Bytes) -> Result<(), Memory>
    ensures { OnOk result (out.new ≡ out.old ++ flat_map spec.out_text outs.now) }
{
    for located in outs {
        put_out(alloc, located, out)?;
    }
    Ok(())
}

fn put_out(alloc: Global, located: &Located, out: &mut Bytes) -> Result<(), Memory>
    ensures { OnOk result (out.new ≡ out.old ++ spec.out_text located.now) }
{
    out.extend_from_slice(b"out ")?;
    let location = located.location.to_string(alloc)?;
    out.extend_from_slice(location.as_bytes())?;
    out.extend_from_slice(b"\n")?;
    put_words(located.words.as_slice(), out)
}

/// The words of the bytes, least byte first, and the bytes that are left over.
fn cut_words(alloc: Global, bytes: &[u8]) -> Result<(Comps, &[u8]), Memory>
    ensures words { IfOk result (λ cut. cut.0 ≡ spec.words_of bytes.now) }
    ensures left { IfOk result (λ cut. cut.1.now ≡ spec.left_over bytes.now) }
{
    let mut words = List::new(alloc);
    let mut rest = bytes;
    while let [a, b, c, d, more @ ..] = rest {
        words.push(u32::from_le_bytes([*a, *b, *c, *d]))?;
        rest = more;
    }
    Ok((words, rest))
}

fn put_words(words: &[u32], out: &mut Bytes) -> Result<(), Memory>
    ensures { OnOk result (out.new ≡ out.old ++ spec.word_lines 0 words.now) }
{
    for index in 0..words.len() {
        out.extend_from_slice(&hex_word(words[index]))?;
        let ends = index % WORDS_A_LINE == WORDS_A_LINE - 1 || index == words.len() - 1;
        out.push(if ends { b'\n' } else { b' ' })?;
    }
    Ok(())
}

fn put_left(bytes: &[u8], out: &mut Bytes) -> Result<(), Memory>
    ensures { OnOk result (out.new ≡ out.old ++ spec.left_line bytes.now) }
{
    if bytes.is_empty() {
        return Ok(());
    }
    out.extend_from_slice(b"bytes")?;
    put_fields(bytes, out)?;
    out.extend_from_slice(b"\n")
}

fn put_fields(bytes: &[u8], out: &mut Bytes) -> Result<(), Memory>
    ensures { OnOk result (out.new ≡ out.old ++ flat_map spec.byte_field bytes.now) }
{
    for byte in bytes {
        let [high, low] = hex_byte(*byte);
        out.extend_from_slice(&[b' ', high, low])?;
    }
    Ok(())
}

/// A word as eight hexadecimal digits.
fn hex_word(word: u32) -> [u8; 8]
    ensures { result ≡ spec.hex_word word }
{
    [
        hex_digit(word >> 28),
        hex_digit(word >> 24),
        hex_digit(word >> 20),
        hex_digit(word >> 16),
        hex_digit(word >> 12),
        hex_digit(word >> 8),
        hex_digit(word >> 4),
        hex_digit(word),
    ]
}

/// A byte as two hexadecimal digits.
fn hex_byte(byte: u8) -> [u8; 2]
    ensures { result ≡ spec.hex_byte byte }
{
    [hex_digit(u32::from(byte) >> 4), hex_digit(u32::from(byte))]
}

/// The last hexadecimal digit of a number.
fn hex_digit(number: u32) -> u8
    ensures { result ≡ spec.hex_digit (number % 16) }
{
    let digit = (number % 16) as u8;
    if digit < 10 {
        b'0' + digit
    } else {
        b'a' + (digit - 10)
    }
}
