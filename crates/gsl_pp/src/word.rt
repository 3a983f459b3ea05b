//! The words of directives.

ghost use Rattle.std.specs.Prelude.{◌≡◌, is_some, codes};
ghost use Rattle.gsl_base.specs.Prefix.{after};
ghost use Rattle.std.specs.Option.{option_map};
ghost use Rattle.gsl_macros.specs.Spelling.{word_of};
ghost use Rattle.gsl_pp.specs.Words as spec;

use gsl_base::{Punct, Raw, RawKind, Text};

/// A directive that opens, turns or closes a group.
#[derive(Clone, Copy, Debug, PartialEq, Eq)]
pub enum Conditional {
    If,
    Ifdef,
    Ifndef,
    Elif,
    Else,
    Endif,
}

/// Another directive.
#[derive(Clone, Copy, Debug, PartialEq, Eq)]
pub enum Other {
    Define,
    Undef,
    Error,
    Pragma,
    Extension,
    Version,
    Line,
}

/// The word that a token is.
pub(crate) fn word(raw: &Raw) -> Option<&Text>
    ensures { option_map (λ t. t.now) result ≡ word_of raw.now.kind }
{
    match &raw.kind {
        RawKind::Word(text) => Some(text),
        _ => None,
    }
}

/// Whether the token is this word.
pub(crate) fn is_word(raw: &Raw, text: &str) -> bool
    ensures { result ≡ spec.is_text text.now (word_of raw.now.kind) }
{
    match word(raw) {
        Some(word) => word.as_str() == text,
        None => false,
    }
}

/// Whether the token is `#`.
pub(crate) fn is_hash(raw: &Raw) -> bool
    ensures { result ≡ spec.is_hash raw.now.kind }
{
    match &raw.kind {
        RawKind::Punct(punct) => matches!(punct, Punct::Hash),
        _ => false,
    }
}

/// Whether the token is `:`.
pub(crate) fn is_colon(raw: &Raw) -> bool
    ensures { result ≡ spec.is_colon raw.now.kind }
{
    match &raw.kind {
        RawKind::Punct(punct) => matches!(punct, Punct::Colon),
        _ => false,
    }
}

#[tactic(auto, unfolding(crate::specs::Words::conditional_of))]
pub(crate) fn conditional_of(word: &Text) -> Option<Conditional>
    ensures { result ≡ spec.conditional_of word.now }
{
    let word = word.as_str();
    if word == "if" {
        Some(Conditional::If)
    } else if word == "ifdef" {
        Some(Conditional::Ifdef)
    } else if word == "ifndef" {
        Some(Conditional::Ifndef)
    } else if word == "elif" {
        Some(Conditional::Elif)
    } else if word == "else" {
        Some(Conditional::Else)
    } else if word == "endif" {
        Some(Conditional::Endif)
    } else {
        None
    }
}

#[tactic(auto, unfolding(crate::specs::Words::other_of))]
pub(crate) fn other_of(word: &Text) -> Option<Other>
    ensures { result ≡ spec.other_of word.now }
{
    let word = word.as_str();
    if word == "define" {
        Some(Other::Define)
    } else if word == "undef" {
        Some(Other::Undef)
    } else if word == "error" {
        Some(Other::Error)
    } else if word == "pragma" {
        Some(Other::Pragma)
    } else if word == "extension" {
        Some(Other::Extension)
    } else if word == "version" {
        Some(Other::Version)
    } else if word == "line" {
        Some(Other::Line)
    } else {
        None
    }
}

/// Whether a macro may not have the name.
pub(crate) fn is_reserved(name: &Text) -> bool
    ensures { result ≡ spec.is_reserved name.now }
{
    let name = name.as_str();
    begins_gl(name)
        || name == "defined"
        || name == "__LINE__"
        || name == "__FILE__"
        || name == "__VERSION__"
}

fn begins_gl(name: &str) -> bool
    ensures { result ≡ is_some (after (codes "GL_") name.now) }
{
    match name.as_bytes() {
        [first, second, third, ..] => *first == b'G' && *second == b'L' && *third == b'_',
        _ => false,
    }
}
