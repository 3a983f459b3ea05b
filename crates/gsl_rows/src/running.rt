//! Running a case, and printing what came.

use crate::case::{Case, File, Kind};
use crate::modules::{assembled, checked, decoded};
use crate::sides::sides;
use crate::sources::{places, stages, tokens, tree};
use crate::text::{bytes_of, filled};
use gsl_base::{Bytes, Memory, Text, Words};
use gsl_cmd::glsl_main;
use gsl_host::MemHost;
use gsl_outline::{Done, Outline};
use std::alloc::Global;

/// Runs a case, once for each of its alternatives, and prints what came.
pub fn run_case(alloc: Global, out: &mut Outline, case: &Case) -> Done {
    out.put("case ")?;
    out.put(case.title.as_str())?;
    out.end_line()?;
    if case.each.is_empty() {
        return run_one(alloc, out, case, "");
    }
    for each in &case.each {
        out.put(if each.is_empty() { "each" } else { "each " })?;
        out.put(each.as_str())?;
        out.end_line()?;
        run_one(alloc, out, case, each.as_str())?;
    }
    Ok(())
}

fn run_one(alloc: Global, out: &mut Outline, case: &Case, each: &str) -> Done {
    if case.kind == Kind::Run {
        return run_words(alloc, out, case, each);
    }
    let text = source(alloc, case, each)?;
    run_text(alloc, out, case, text.as_slice())
}

/// Does with the text of the case's first file what the case asks.
fn run_text(alloc: Global, out: &mut Outline, case: &Case, text: &[u8]) -> Done {
    match case.kind {
        Kind::Run => Ok(()),
        Kind::Tree => tree(alloc, out, text, true),
        Kind::Parsed => tree(alloc, out, text, false),
        Kind::Tokens => tokens(alloc, out, text),
        Kind::Places => places(alloc, out, text),
        Kind::Asm => assembled(alloc, out, text),
        Kind::Decode => decoded(alloc, out, text),
        Kind::Check => checked(alloc, out, text),
        Kind::Stages => stages(alloc, out, text),
        Kind::Sides => sides(alloc, out, text, &case.buffer),
    }
}

/// The bytes of the case's first file.
fn source(alloc: Global, case: &Case, each: &str) -> Result<Bytes, Memory> {
    match case.files.first() {
        Some(file) => bytes_of(alloc, file, each),
        None => Ok(Bytes::new(alloc)),
    }
}

/// The words of a command line, the program's name first.
fn words(alloc: Global, line: &str) -> Result<Words, Memory> {
    let mut all = Words::new(alloc);
    all.push(Text::from_str(alloc, "gsl")?)?;
    for word in line.split_whitespace() {
        all.push(Text::from_str(alloc, word)?)?;
    }
    Ok(all)
}

/// Runs the words over a host that has the case's files.
fn run_words(alloc: Global, out: &mut Outline, case: &Case, each: &str) -> Done {
    let mut host = MemHost::new(alloc, case.fail.as_slice())?;
    run_over(alloc, out, case, each, &mut host)
}

fn run_over(alloc: Global, out: &mut Outline, case: &Case, each: &str, host: &mut MemHost) -> Done {
    for file in &case.files {
        set(alloc, host, file, each)?;
    }
    let status = status_of(alloc, case, each, host)?;
    out.put("status ")?;
    out.number(u64::from(status))?;
    out.end_line()?;
    told(out, host)?;
    changed(alloc, out, case, each, host)?;
    shown(alloc, out, case, host)
}

/// Sets a file of the case.
fn set(alloc: Global, host: &mut MemHost, file: &File, each: &str) -> Done {
    let bytes = bytes_of(alloc, file, each)?;
    put_file(alloc, host, file.name.as_str(), bytes.as_slice())
}

fn put_file(alloc: Global, host: &mut MemHost, name: &str, bytes: &[u8]) -> Done {
    let name = Text::from_str(alloc, name)?;
    host.put_file(&name, bytes)
}

/// The status of the case's command line.
fn status_of(alloc: Global, case: &Case, each: &str, host: &mut MemHost) -> Result<u8, Memory> {
    let line = filled(alloc, case.words.as_str(), "<each>", each)?;
    run_line(alloc, line.as_str(), host)
}

/// The status of a command line.
pub fn run_line(alloc: Global, line: &str, host: &mut MemHost) -> Result<u8, Memory> {
    let words = words(alloc, line)?;
    Ok(glsl_main(alloc, &words, host))
}

/// What was printed, and how many calls failed.
fn told(out: &mut Outline, host: &MemHost) -> Done {
    stream(out, "out | ", host.out())?;
    stream(out, "err | ", host.err())?;
    if host.faults() > 0 {
        out.put("faults ")?;
        out.number(host.faults())?;
        out.end_line()?;
    }
    Ok(())
}

/// The lines of a stream, each behind its name.
pub fn stream(out: &mut Outline, name: &str, bytes: &[u8]) -> Done {
    let mut in_line = false;
    for byte in bytes {
        if !in_line {
            out.put(name)?;
        }
        in_line = *byte != b'\n';
        stream_byte(out, *byte)?;
    }
    if in_line {
        out.put(" (no line end)\n")
    } else {
        Ok(())
    }
}

/// Whether the byte is a plain character or a line end.
fn is_plain(byte: &u8) -> bool {
    *byte == b'\n' || (*byte >= b' ' && *byte <= b'~')
}

/// A byte as text: one that is no plain character in hexadecimal digits, but for a line end.
fn stream_byte(out: &mut Outline, byte: u8) -> Done {
    if is_plain(&byte) {
        return out.put_bytes(&[byte]);
    }
    out.put("\\x")?;
    out.hex_byte(byte)
}

/// Tells of each file of the case that is no longer as it was.
fn changed(alloc: Global, out: &mut Outline, case: &Case, each: &str, host: &MemHost) -> Done {
    for file in &case.files {
        if is_changed(alloc, file, each, host)? {
            out.put("changed ")?;
            out.put(file.name.as_str())?;
            out.end_line()?;
        }
    }
    Ok(())
}

fn is_changed(alloc: Global, file: &File, each: &str, host: &MemHost) -> Result<bool, Memory> {
    let before = bytes_of(alloc, file, each)?;
    let now = found(alloc, host, file.name.as_str())?;
    Ok(now != Some(before.as_slice()))
}

/// The bytes of a file of the host.
fn found<'a>(alloc: Global, host: &'a MemHost, name: &str) -> Result<Option<&'a [u8]>, Memory> {
    let name = Text::from_str(alloc, name)?;
    Ok(host.file(&name))
}

/// Prints the files that the case names: the lines of a text, and else words and the bytes left over.
fn shown(alloc: Global, out: &mut Outline, case: &Case, host: &MemHost) -> Done {
    for name in &case.shown {
        out.put("file ")?;
        out.put(name.as_str())?;
        match found(alloc, host, name.as_str())? {
            None => out.put(" none\n")?,
            Some(bytes) => show_bytes(out, bytes)?,
        }
    }
    Ok(())
}

fn show_bytes(out: &mut Outline, bytes: &[u8]) -> Done {
    out.end_line()?;
    if bytes.iter().all(is_plain) {
        stream(out, "  | ", bytes)
    } else {
        dump(out, bytes)
    }
}

/// Bytes as words, least byte first, eight to a line, and those left over.
pub fn dump(out: &mut Outline, bytes: &[u8]) -> Done {
    let mut held = [0u8; 4];
    let mut count = 0u64;
    for byte in bytes {
        held[(count % 4) as usize] = *byte;
        count = count.saturating_add(1);
        if count % 4 == 0 {
            word(out, u32::from_le_bytes(held), count / 4)?;
        }
    }
    if count / 4 % 8 != 0 {
        out.end_line()?;
    }
    left_over(out, &held[..(count % 4) as usize])
}

/// The word of this number, counted from 1.
fn word(out: &mut Outline, word: u32, number: u64) -> Done {
    out.put(if number % 8 == 1 { "  " } else { " " })?;
    out.hex_word(word)?;
    if number % 8 == 0 {
        out.end_line()
    } else {
        Ok(())
    }
}

fn left_over(out: &mut Outline, bytes: &[u8]) -> Done {
    if bytes.is_empty() {
        return Ok(());
    }
    out.put("  bytes")?;
    for byte in bytes {
        out.put(" ")?;
        out.hex_byte(*byte)?;
    }
    out.end_line()
}
