//! What a line says.

ghost use Rattle.std.specs.Prelude.{◌≡◌, IfOk};
ghost use Rattle.std.specs.Str.{is_utf8 as spells_text};
ghost use Rattle.gsl_manifest.specs.Meanings as spec;

use crate::fields::{
    first_field, last_number, last_three, last_unsigned, next_unsigned, path, some_numbers,
};
use crate::meaning::{Keyword, Meaning};
use gsl_base::Memory;
use std::alloc::Global;

/// The most words at a location.
const MAX_WORDS: usize = 4;

/// The most steps that a manifest may give, and those of one that gives none.
pub const MAX_STEPS: u32 = 1_000_000_000;

/// What a line says, or `None` where no manifest has such a line.
#[tactic(auto, unfolding(crate::specs::Meanings::meaning_of))]
pub fn meaning(alloc: Global, line: &[u8]) -> Result<Option<Meaning>, Memory>
    ensures { IfOk result (λ found. found ≡ spec.meaning_of line.now) }
{
    if !is_utf8(line) {
        return Ok(None);
    }
    if is_blank(line) {
        return Ok(Some(Meaning::Nothing));
    }
    sentence(alloc, line)
}

fn is_utf8(line: &[u8]) -> bool
    ensures { result ≡ spells_text line.now }
{
    str::from_utf8(line).is_ok()
}

/// Whether a line is empty or a comment.
fn is_blank(line: &[u8]) -> bool
    ensures { result ≡ spec.is_blank line.now }
{
    match line {
        [] => true,
        [byte, ..] => *byte == b'#',
    }
}

/// A word and its fields.
#[tactic(auto, unfolding(crate::specs::Meanings::sentence))]
fn sentence(alloc: Global, line: &[u8]) -> Result<Option<Meaning>, Memory>
    ensures { IfOk result (λ found. found ≡ spec.sentence line.now) }
{
    let (word, fields) = first_field(line);
    let Some(keyword) = keyword(word) else {
        return Ok(None);
    };
    fields_say(alloc, keyword, fields)
}

/// The word that a line begins with.
#[tactic(auto, unfolding(crate::specs::Meanings::keyword_of))]
fn keyword(word: &[u8]) -> Option<Keyword>
    ensures { result ≡ spec.keyword_of word.now }
{
    if word == b"buffer".as_slice() {
        Some(Keyword::Buffer)
    } else if word == b"push".as_slice() {
        Some(Keyword::Push)
    } else if word == b"in".as_slice() {
        Some(Keyword::In)
    } else if word == b"group".as_slice() {
        Some(Keyword::Group)
    } else if word == b"local".as_slice() {
        Some(Keyword::Local)
    } else if word == b"groups".as_slice() {
        Some(Keyword::Groups)
    } else if word == b"vertex".as_slice() {
        Some(Keyword::Vertex)
    } else if word == b"instance".as_slice() {
        Some(Keyword::Instance)
    } else if word == b"choice".as_slice() {
        Some(Keyword::Choice)
    } else if word == b"steps".as_slice() {
        Some(Keyword::Steps)
    } else {
        None
    }
}

/// What the fields behind the word say.
fn fields_say(alloc: Global, keyword: Keyword, bytes: &[u8]) -> Result<Option<Meaning>, Memory>
    ensures { IfOk result (λ found. found ≡ spec.fields_say keyword bytes.now) }
{
    match keyword {
        Keyword::Buffer => buffer(alloc, bytes),
        Keyword::Push => push(alloc, bytes),
        Keyword::In => values(alloc, bytes),
        Keyword::Group => Ok(group(bytes)),
        Keyword::Local => Ok(local(bytes)),
        Keyword::Groups => Ok(groups(bytes)),
        Keyword::Vertex => Ok(vertex(bytes)),
        Keyword::Instance => Ok(instance(bytes)),
        Keyword::Choice => choice(alloc, bytes),
        Keyword::Steps => Ok(steps(bytes)),
    }
}

/// `buffer SET BINDING PATH`
#[tactic(auto, unfolding(crate::specs::Meanings::buffer_at))]
fn buffer(alloc: Global, bytes: &[u8]) -> Result<Option<Meaning>, Memory>
    ensures { IfOk result (λ found. found ≡ spec.buffer_at bytes.now) }
{
    let Some((set, rest)) = next_unsigned(bytes) else {
        return Ok(None);
    };
    let Some((binding, rest)) = next_unsigned(rest) else {
        return Ok(None);
    };
    let Some(path) = path(alloc, rest)? else {
        return Ok(None);
    };
    Ok(Some(Meaning::Buffer(set, binding, path)))
}

/// `push PATH`
fn push(alloc: Global, bytes: &[u8]) -> Result<Option<Meaning>, Memory>
    ensures { IfOk result (λ found. found ≡ spec.push_at bytes.now) }
{
    let Some(path) = path(alloc, bytes)? else {
        return Ok(None);
    };
    Ok(Some(Meaning::Push(path)))
}

/// `in LOCATION w..`
#[tactic(auto, unfolding(crate::specs::Meanings::in_at))]
fn values(alloc: Global, bytes: &[u8]) -> Result<Option<Meaning>, Memory>
    ensures { IfOk result (λ found. found ≡ spec.in_at bytes.now) }
{
    let Some((location, rest)) = next_unsigned(bytes) else {
        return Ok(None);
    };
    let Some(words) = some_numbers(alloc, MAX_WORDS, rest)? else {
        return Ok(None);
    };
    Ok(Some(Meaning::In(location, words)))
}

/// `choice w..`
#[tactic(auto, unfolding(crate::specs::Meanings::choice_at))]
fn choice(alloc: Global, bytes: &[u8]) -> Result<Option<Meaning>, Memory>
    ensures { IfOk result (λ found. found ≡ spec.choice_at bytes.now) }
{
    let Some(words) = some_numbers(alloc, bytes.len(), bytes)? else {
        return Ok(None);
    };
    Ok(Some(Meaning::Choice(words)))
}

/// `group x y z`
fn group(bytes: &[u8]) -> Option<Meaning>
    ensures { result ≡ spec.group_at bytes.now }
{
    Some(Meaning::Group(last_three(bytes)?))
}

/// `local x y z`
fn local(bytes: &[u8]) -> Option<Meaning>
    ensures { result ≡ spec.local_at bytes.now }
{
    Some(Meaning::Local(last_three(bytes)?))
}

/// `groups x y z`
fn groups(bytes: &[u8]) -> Option<Meaning>
    ensures { result ≡ spec.groups_at bytes.now }
{
    Some(Meaning::Groups(last_three(bytes)?))
}

/// `vertex n`
fn vertex(bytes: &[u8]) -> Option<Meaning>
    ensures { result ≡ spec.vertex_at bytes.now }
{
    Some(Meaning::Vertex(last_number(bytes)?))
}

/// `instance n`
fn instance(bytes: &[u8]) -> Option<Meaning>
    ensures { result ≡ spec.instance_at bytes.now }
{
    Some(Meaning::Instance(last_number(bytes)?))
}

/// `steps n`
#[tactic(auto, unfolding(crate::specs::Meanings::steps_at))]
fn steps(bytes: &[u8]) -> Option<Meaning>
    ensures { result ≡ spec.steps_at bytes.now }
{
    let steps = last_unsigned(bytes)?;
    if steps > MAX_STEPS {
        return None;
    }
    Some(Meaning::Steps(u64::from(steps)))
}
