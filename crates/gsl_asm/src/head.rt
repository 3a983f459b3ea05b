//! The version and the bound of a text.

ghost use Rattle.std.specs.Prelude.{◌≡◌};
ghost use Rattle.gsl_asm.specs.Reading as spec;

use crate::instruction::is_text;
use crate::line::Line;
use crate::word::Word;
use gsl_text::unsigned;
use gsl_words::Target;

/// What a line says before any instruction: nothing, or the version and the bound.
pub fn line_head(line: &[u8]) -> Option<Option<(Target, u32)>>
    ensures { result ≡ spec.first_head line.now }
{
    if !is_text(line) {
        return None;
    }
    head_words(Line::new(line)?)
}

fn head_words(mut words: Line<'_>) -> Option<Option<(Target, u32)>>
    ensures { result ≡ spec.line_head words.entry }
{
    match words.next() {
        None => Some(None),
        Some(first) => {
            let head = head_of(first, words)?;
            Some(Some(head))
        }
    }
}

/// The version and the bound that words say, of which this is the first.
fn head_of(first: Word<'_>, mut words: Line<'_>) -> Option<(Target, u32)>
    ensures { result ≡ spec.head_of first.entry words.entry }
{
    let Word::Plain(spirv) = first else {
        return None;
    };
    let Some(Word::Plain(version)) = words.next() else {
        return None;
    };
    let Some(Word::Plain(bound)) = words.next() else {
        return None;
    };
    if words.next().is_some() {
        return None;
    }
    if spirv.as_slice() != b"spirv".as_slice() {
        return None;
    }
    head_by(version.as_slice(), bound.as_slice())
}

fn head_by(version: &[u8], bound: &[u8]) -> Option<(Target, u32)>
    ensures { result ≡ spec.head_by version.now bound.now }
{
    let target = target_of(version)?;
    let bound = unsigned(bound)?;
    Some((target, bound))
}

fn target_of(word: &[u8]) -> Option<Target>
    ensures { result ≡ spec.target_of word.now }
{
    if word == b"1.0".as_slice() {
        Some(Target::V10)
    } else if word == b"1.3".as_slice() {
        Some(Target::V13)
    } else {
        None
    }
}
