//! The words of a line.

use crate::chars::{Chars, Raw};

/// A word of a line, between blanks.
#[derive(Drop)]
pub enum Word<'a> {
    /// Characters as they stand.
    Plain(Chars<'a>),
    /// The characters that stand between quotes.
    Quoted(Raw<'a>),
}

/// What stands next in a line.
#[derive(Drop)]
pub enum Next<'a> {
    /// Nothing, or a comment.
    End,
    /// Something that is no word.
    Bad,
    Word(Word<'a>),
}
