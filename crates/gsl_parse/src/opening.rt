//! What a statement begins with.

ghost use Rattle.std.specs.Prelude.{◌≡◌};
ghost use Rattle.gsl_parse.specs.Openings as spec;

use gsl_base::{Key, Kind, Punct};
use gsl_expr::Cursor;

/// What the first token of a statement opens.
#[derive(Clone, Copy, Debug, PartialEq, Eq)]
pub(crate) enum Opening {
    Empty,
    Block,
    If,
    Switch,
    Case,
    Default,
    While,
    Do,
    For,
    Break,
    Continue,
    Discard,
    Return,
    /// A declaration that begins with a qualifier or with `struct`.
    Local,
    /// An expression, or a declaration that begins with a type.
    Phrase,
}

fn opening_punct(punct: Punct) -> Opening
    ensures { result ≡ spec.opening_punct punct }
{
    match punct {
        Punct::Semicolon => Opening::Empty,
        Punct::LeftBrace => Opening::Block,
        _ => Opening::Phrase,
    }
}

fn opening_key(key: Key) -> Opening
    ensures { result ≡ spec.opening_key key }
{
    match key {
        Key::If => Opening::If,
        Key::Switch => Opening::Switch,
        Key::Case => Opening::Case,
        Key::Default => Opening::Default,
        Key::While => Opening::While,
        Key::Do => Opening::Do,
        Key::For => Opening::For,
        Key::Break => Opening::Break,
        Key::Continue => Opening::Continue,
        Key::Discard => Opening::Discard,
        Key::Return => Opening::Return,
        Key::Struct
        | Key::Layout
        | Key::Const
        | Key::In
        | Key::Out
        | Key::Inout
        | Key::Uniform
        | Key::Buffer
        | Key::Flat
        | Key::Coherent
        | Key::Volatile
        | Key::Restrict
        | Key::Readonly
        | Key::Writeonly => Opening::Local,
        _ => Opening::Phrase,
    }
}

fn opening_by(kind: &Kind) -> Opening
    ensures { result ≡ spec.opening_by kind.now }
{
    match kind {
        Kind::Punct(punct) => opening_punct(*punct),
        Kind::Key(key) => opening_key(*key),
        _ => Opening::Phrase,
    }
}

/// What the next token opens.
#[tactic(auto, unfolding(crate::specs::Openings::opening_at))]
pub(crate) fn next_opening(tokens: &Cursor<'_>) -> Opening
    ensures { result ≡ spec.opening_at tokens.now.left }
{
    match tokens.next() {
        Some(token) => opening_by(&token.kind),
        None => Opening::Phrase,
    }
}
