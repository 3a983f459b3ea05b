//! A case, as its file has it.

use gsl_base::{Bytes, Memory};
use std::alloc::Global;

/// What is done with a case.
#[derive(Clone, Copy, Debug, PartialEq, Eq)]
pub enum Kind {
    /// A command line is run over a host in memory.
    Run,
    /// A text is parsed, and its tree printed.
    Tree,
    /// A text is parsed, and what came is told.
    Parsed,
    /// The live tokens of a text are printed.
    Tokens,
    /// The same, with their lines.
    Places,
    /// A text is assembled to a module, which is shown.
    Asm,
    /// A module is decoded from bytes, and shown.
    Decode,
    /// A text is assembled, and its module's file is checked.
    Check,
    /// A text is compiled for each stage.
    Stages,
    /// A shader and its module run on a buffer, side by side.
    Sides,
}

/// A piece of a file's text, in which `<each>` stands for the alternative.
#[derive(Clone, Copy, Debug, PartialEq, Eq)]
pub enum Piece {
    /// The text, and a line end.
    Line,
    /// The text alone.
    Text,
    /// Bytes in hexadecimal digits.
    Bytes,
    /// Each word on a line of its own.
    Words,
    /// A number, and a text that is put so many times.
    Times,
    /// Two numbers, and a text that is put for each number from the first to the second, which stands
    /// for `<n>`.
    Count,
    /// The same, from the first number down to the second.
    Down,
}

/// A file of a case, in pieces.
#[derive(Drop)]
pub struct File {
    pub name: String,
    pub pieces: Vec<(Piece, String)>,
}

/// A case, with the number of the line on which it begins.
#[derive(Drop)]
pub struct Case {
    pub line: u32,
    pub title: String,
    pub kind: Kind,
    pub words: String,
    pub files: Vec<File>,
    /// The numbers of the host's calls that are to fail.
    pub fail: Vec<u32>,
    /// The files that are printed behind the run.
    pub shown: Vec<String>,
    /// The binding of the one buffer and its bytes.
    pub buffer: Option<(u32, Bytes)>,
    pub each: Vec<String>,
}

impl Case {
    /// A case with nothing in it.
    pub fn new(alloc: Global, line: u32, title: &str) -> Result<Case, Memory> {
        Ok(Case {
            line,
            title: String::from_str(alloc, title)?,
            kind: Kind::Run,
            words: String::new(alloc),
            files: Vec::new(alloc),
            fail: Vec::new(alloc),
            shown: Vec::new(alloc),
            buffer: None,
            each: Vec::new(alloc),
        })
    }
}
