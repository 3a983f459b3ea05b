//! Reading the cases of a file.

use gsl_base::{Bytes, Memory};
use std::alloc::Global;

/// Lines of a module's text by a name.
#[derive(Drop)]
struct Piece {
    name: String,
    text: String,
}

/// A case: its title, the text of its module, its manifest, the files that the manifest names, and the texts that stand for `<each>`.
#[derive(Drop)]
pub struct Case {
    pub title: String,
    pub text: String,
    pub manifest: String,
    pub files: Vec<(String, Bytes)>,
    pub each: Vec<String>,
}

/// The pieces and the cases that were read so far. Lines of texts belong to the last piece, or to the last case.
#[derive(Drop)]
struct Read {
    pieces: Vec<Piece>,
    cases: Vec<Case>,
    in_piece: bool,
}

/// The bytes of words of hexadecimal digits: of eight digits a word, least byte first, else one byte.
fn hex(alloc: Global, text: &str) -> Result<Bytes, Memory> {
    let mut out = Bytes::new(alloc);
    for digits in text.split_whitespace() {
        let word = u32::from_str_radix(digits, 16).unwrap_or(0);
        let [a, b, c, d] = word.to_le_bytes();
        if digits.len() == 8 {
            out.extend_from_slice(&[a, b, c, d])?;
        } else {
            out.extend_from_slice(&[a])?;
        }
    }
    Ok(out)
}

/// Begins a case.
fn begin_case(alloc: Global, read: &mut Read, title: &str) -> Result<(), Memory> {
    let case = Case {
        title: String::from_str(alloc, title)?,
        text: String::new(alloc),
        manifest: String::new(alloc),
        files: Vec::new(alloc),
        each: Vec::new(alloc),
    };
    read.in_piece = false;
    read.cases.push(case)?;
    Ok(())
}

/// Begins a piece.
fn begin_piece(alloc: Global, read: &mut Read, name: &str) -> Result<(), Memory> {
    let piece = Piece {
        name: String::from_str(alloc, name)?,
        text: String::new(alloc),
    };
    read.in_piece = true;
    read.pieces.push(piece)?;
    Ok(())
}

/// Puts parts and a line end behind a text.
fn put_line(text: &mut String, parts: &[&str]) -> Result<(), Memory> {
    for part in parts {
        text.push_str(part)?;
    }
    text.push_str("\n")?;
    Ok(())
}

/// Puts the text of a piece behind the text of a case.
fn use_piece(case: &mut Case, pieces: &Vec<Piece>, name: &str) -> Result<(), Memory> {
    for piece in pieces {
        if piece.name.as_str() == name {
            case.text.push_str(piece.text.as_str())?;
        }
    }
    Ok(())
}

/// Gives a case a file of bytes, which is named as the beginning of its line.
fn put_file(alloc: Global, case: &mut Case, name: &str, digits: &str) -> Result<(), Memory> {
    put_line(&mut case.manifest, &[name, " ", name])?;
    let bytes = hex(alloc, digits)?;
    case.files.push((String::from_str(alloc, name)?, bytes))?;
    Ok(())
}

/// Takes `SET BINDING HEX ..`.
fn take_buffer(alloc: Global, case: &mut Case, rest: &str) -> Result<(), Memory> {
    let (set, rest) = rest.split_once(' ').unwrap_or((rest, ""));
    let (binding, digits) = rest.split_once(' ').unwrap_or((rest, ""));
    let name = format!(in alloc; "buffer {set} {binding}")?;
    put_file(alloc, case, name.as_str(), digits)
}

/// Takes a line of a case.
fn take_of_case(
    alloc: Global,
    case: &mut Case,
    pieces: &Vec<Piece>,
    word: &str,
    rest: &str,
) -> Result<(), Memory> {
    match word {
        "|" => put_line(&mut case.text, &[rest]),
        "use" => use_piece(case, pieces, rest),
        "buffer" => take_buffer(alloc, case, rest),
        "push" => put_file(alloc, case, "push", rest),
        "given" => put_line(&mut case.manifest, &[rest]),
        "each" => {
            case.each.push(String::from_str(alloc, rest)?)?;
            Ok(())
        }
        _ => Ok(()),
    }
}

/// Takes a line of a piece.
fn take_of_piece(pieces: &mut Vec<Piece>, word: &str, rest: &str) -> Result<(), Memory> {
    if word == "|" {
        if let Some(piece) = pieces.last_mut() {
            put_line(&mut piece.text, &[rest])?;
        }
    }
    Ok(())
}

/// Takes a line.
fn take(alloc: Global, read: &mut Read, word: &str, rest: &str) -> Result<(), Memory> {
    if word == "case" {
        return begin_case(alloc, read, rest);
    }
    if word == "piece" {
        return begin_piece(alloc, read, rest);
    }
    if read.in_piece {
        return take_of_piece(&mut read.pieces, word, rest);
    }
    if let Some(case) = read.cases.last_mut() {
        take_of_case(alloc, case, &read.pieces, word, rest)?;
    }
    Ok(())
}

/// The cases of a text, in their order.
pub fn read_cases(alloc: Global, text: &str) -> Result<Vec<Case>, Memory> {
    let mut read = Read {
        pieces: Vec::new(alloc),
        cases: Vec::new(alloc),
        in_piece: false,
    };
    for line in text.lines() {
        let (word, rest) = line.split_once(' ').unwrap_or((line, ""));
        take(alloc, &mut read, word, rest)?;
    }
    Ok(read.cases)
}
