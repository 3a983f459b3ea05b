//! Reading the cases of a file. `docs/CASES.md` has the form.

use crate::case::{Case, File, Kind, Piece};
use crate::text::hex;
use gsl_base::Memory;
use std::alloc::{AllocError, AllocFailed, Global};

/// Why a file of cases is not read.
#[derive(Clone, Copy, Debug, PartialEq, Eq)]
pub enum Misread {
    /// This line is none of the form.
    Line(u32),
    Memory,
}

impl From<Memory> for Misread {
    fn from(_error: Memory) -> Misread {
        Misread::Memory
    }
}

impl From<AllocError> for Misread {
    fn from(_error: AllocError) -> Misread {
        Misread::Memory
    }
}

impl<T: Drop> From<AllocFailed<T>> for Misread {
    fn from(_error: AllocFailed<T>) -> Misread {
        Misread::Memory
    }
}

/// The first word of a line, and what stands behind the blank behind it.
fn first_word(line: &str) -> (&str, &str) {
    line.split_once(' ').unwrap_or((line, ""))
}

/// The cases of a text, in their order.
pub fn read_cases(alloc: Global, text: &str) -> Result<Vec<Case>, Misread> {
    let mut cases = Vec::new(alloc);
    let mut number = 0u32;
    for line in text.lines() {
        number = number.saturating_add(1);
        read_line(alloc, &mut cases, line, number)?;
    }
    Ok(cases)
}

/// Reads a line: it begins a case, is one of the last case, or says nothing.
fn read_line(alloc: Global, cases: &mut Vec<Case>, line: &str, number: u32) -> Result<(), Misread> {
    let (word, rest) = first_word(line);
    if word == "case" {
        cases.push(Case::new(alloc, number, rest)?)?;
        return Ok(());
    }
    if line.is_empty() || line.starts_with('#') {
        return Ok(());
    }
    match cases.last_mut() {
        Some(case) => take(alloc, case, word, rest, number),
        None => Err(Misread::Line(number)),
    }
}

/// What is done with a case, by the word of its line.
fn kind_of(word: &str) -> Option<Kind> {
    match word {
        "run" => Some(Kind::Run),
        "tree" => Some(Kind::Tree),
        "parsed" => Some(Kind::Parsed),
        "tokens" => Some(Kind::Tokens),
        "places" => Some(Kind::Places),
        "asm" => Some(Kind::Asm),
        "decode" => Some(Kind::Decode),
        "check" => Some(Kind::Check),
        "stages" => Some(Kind::Stages),
        "sides" => Some(Kind::Sides),
        _ => None,
    }
}

/// Takes a line of a case: what is done, or what is on the host.
fn take(
    alloc: Global,
    case: &mut Case,
    word: &str,
    rest: &str,
    number: u32,
) -> Result<(), Misread> {
    match kind_of(word) {
        Some(kind) => take_kind(alloc, case, kind, rest),
        None => take_line(alloc, case, word, rest, number),
    }
}

fn take_kind(alloc: Global, case: &mut Case, kind: Kind, rest: &str) -> Result<(), Misread> {
    let words = String::from_str(alloc, rest)?;
    case.kind = kind;
    case.words = words;
    Ok(())
}

fn take_line(
    alloc: Global,
    case: &mut Case,
    word: &str,
    rest: &str,
    number: u32,
) -> Result<(), Misread> {
    match word {
        "show" => put_text(alloc, &mut case.shown, rest),
        "each" => put_text(alloc, &mut case.each, rest),
        "fail" => take_fail(case, rest, number),
        "buffer" => take_buffer(alloc, case, rest, number),
        "file" => new_file(alloc, case, rest),
        "shader" => new_shader(alloc, case, rest, number),
        _ => take_piece(alloc, case, word, rest, number),
    }
}

fn put_text(alloc: Global, texts: &mut Vec<String>, text: &str) -> Result<(), Misread> {
    let text = String::from_str(alloc, text)?;
    texts.push(text)?;
    Ok(())
}

/// Begins a file with the first two lines of a shader.
fn new_shader(alloc: Global, case: &mut Case, name: &str, number: u32) -> Result<(), Misread> {
    new_file(alloc, case, name)?;
    let head = "#version 450\nlayout(local_size_x = 1) in;";
    piece(alloc, case, Piece::Line, head, number)
}

fn take_fail(case: &mut Case, rest: &str, number: u32) -> Result<(), Misread> {
    for digits in rest.split_whitespace() {
        match digits.parse::<u32>() {
            Ok(call) => case.fail.push(call)?,
            Err(_) => return Err(Misread::Line(number)),
        }
    }
    Ok(())
}

fn take_buffer(alloc: Global, case: &mut Case, rest: &str, number: u32) -> Result<(), Misread> {
    let (binding, bytes) = first_word(rest);
    match binding.parse::<u32>() {
        Ok(binding) => {
            case.buffer = Some((binding, hex(alloc, bytes)?));
            Ok(())
        }
        Err(_) => Err(Misread::Line(number)),
    }
}

fn new_file(alloc: Global, case: &mut Case, name: &str) -> Result<(), Misread> {
    let file = File {
        name: String::from_str(alloc, name)?,
        pieces: Vec::new(alloc),
    };
    case.files.push(file)?;
    Ok(())
}

/// Adds a piece to the file that was begun last.
fn piece(
    alloc: Global,
    case: &mut Case,
    what: Piece,
    text: &str,
    number: u32,
) -> Result<(), Misread> {
    match case.files.last_mut() {
        Some(file) => put_piece(alloc, file, what, text),
        None => Err(Misread::Line(number)),
    }
}

fn put_piece(alloc: Global, file: &mut File, what: Piece, text: &str) -> Result<(), Misread> {
    let text = String::from_str(alloc, text)?;
    file.pieces.push((what, text))?;
    Ok(())
}

/// The piece that a line of a file's text is alone, by the line's first word.
fn piece_of(word: &str) -> Option<Piece> {
    match word {
        "|" | "top" => Some(Piece::Line),
        ">" => Some(Piece::Text),
        "bytes" => Some(Piece::Bytes),
        "words" => Some(Piece::Words),
        "times" => Some(Piece::Times),
        "count" => Some(Piece::Count),
        "down" => Some(Piece::Down),
        _ => None,
    }
}

/// Takes a line of a file's text.
fn take_piece(
    alloc: Global,
    case: &mut Case,
    word: &str,
    rest: &str,
    number: u32,
) -> Result<(), Misread> {
    if let Some(what) = piece_of(word) {
        return piece(alloc, case, what, rest, number);
    }
    match word {
        "members" => {
            let block = "layout(set = 0, binding = 0, std430) buffer B { ";
            around(alloc, case, [block, rest, " };"], number)
        }
        "statements" => around(alloc, case, ["void main() { ", rest, " }"], number),
        _ => Err(Misread::Line(number)),
    }
}

/// Puts three texts in one line.
fn around(alloc: Global, case: &mut Case, texts: [&str; 3], number: u32) -> Result<(), Misread> {
    let [front, middle, end] = texts;
    piece(alloc, case, Piece::Text, front, number)?;
    piece(alloc, case, Piece::Text, middle, number)?;
    piece(alloc, case, Piece::Line, end, number)
}
