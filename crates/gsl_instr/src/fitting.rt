//! Which operand words the table has room for.

ghost use Rattle.std.specs.Prelude.{◌≡◌, ◌+◌, ◌^◌, ◌<◌, ◌≤◌, ◌++◌, ℕ, Some, Bool, IsTrue, length, IfOk, IfSome};
ghost use Rattle.std.specs.Str.{is_utf8 as spells_text};
ghost use Rattle.std.specs.Option.{option_map};
ghost use Rattle.gsl_instr.specs.Forms as spec;
ghost use Rattle.gsl_instr.specs.Fitting as fitting;
ghost use Rattle.gsl_instr.specs.Texts as texts;

use crate::form::Form;
use crate::operands::{rest, slots};
use crate::parts::is_text;
use crate::slot::Rest;
use gsl_base::{Bytes, Memory};
use std::alloc::Global;

/// Whether so many operands may follow.
pub fn allows(rest: Rest, count: usize) -> bool
    ensures { result ≡ spec.allows rest count }
{
    match rest {
        Rest::Nothing => count == 0,
        Rest::Maybe(_) => count <= 1,
        Rest::Many(_, least, most) => usize::from(least) <= count && count <= usize::from(most),
        Rest::Any(_, least) => usize::from(least) <= count,
        Rest::NoneOrThree => count == 0 || count == 3,
        Rest::Pairs => count % 2 == 0,
    }
}

/// Whether a form has a text among its operands.
pub fn has_text(form: Form) -> bool
    ensures { result ≡ spec.has_text form }
{
    slots(form).iter().any(|slot| is_text(*slot))
}

/// Whether an instruction of a form may have so many operand words.
pub fn allows_words(form: Form, count: usize) -> bool
    ensures { result ≡ spec.allows_words form count }
{
    let least = slots(form).len();
    least <= count && (has_text(form) || allows(rest(form), count - least))
}

/// Whether the text of a form stands among its operands, if it has one.
#[tactic(auto, unfolding(crate::specs::Fitting::fits_text))]
pub fn fits_text(alloc: Global, form: Form, args: &[u32]) -> Result<bool, Memory>
    requires { IsTrue (spec.allows_words form (length args.now)) }
    ensures { IfOk result (λ fits. fits ≡ fitting.fits_text form args.now) }
{
    if !has_text(form) {
        return Ok(true);
    }
    let before = slots(form).len() - 1;
    match text_at(alloc, &args[before..])? {
        None => Ok(false),
        Some((text, left)) => Ok(is_utf8(text.as_slice()) && allows(rest(form), left)),
    }
}

fn is_utf8(bytes: &[u8]) -> bool
    ensures { result ≡ spells_text bytes.now }
{
    str::from_utf8(bytes).is_ok()
}

/// The bytes of the text that words begin with, and how many words stand behind it, if there is one but
/// for its bytes being UTF-8.
pub fn text_at(alloc: Global, words: &[u32]) -> Result<Option<(Bytes, usize)>, Memory>
    ensures { IfOk result (λ found. found ≡ option_map (λ text. (text.0, length text.1)) (texts.text_at words.now)) }
{
    let mut bytes = Bytes::new(alloc);
    let mut rest = words;
    while let [word, more @ ..] = rest {
        if *word < 1 << 24 {
            let Some(len) = last_len(*word) else {
                return Ok(None);
            };
            bytes.extend_from_slice(&bytes_of(*word)[..len])?;
            return Ok(Some((bytes, more.len())));
        }
        if !is_full(*word) {
            return Ok(None);
        }
        bytes.extend_from_slice(&bytes_of(*word))?;
        rest = more;
    }
    Ok(None)
}

/// The bytes of a word, the least first.
fn bytes_of(word: u32) -> [u8; 4]
    ensures { result ≡ texts.bytes_of word }
{
    [
        (word % 256) as u8,
        (word / 256 % 256) as u8,
        (word / 65536 % 256) as u8,
        (word / 16777216 % 256) as u8,
    ]
}

/// Whether none of the three lower bytes is zero.
fn is_full(word: u32) -> bool
    ensures { result ≡ texts.is_full word }
{
    !(word % 256 == 0 || word / 256 % 256 == 0 || word / 65536 % 256 == 0)
}

/// How many bytes of a text its last word has.
fn last_len(word: u32) -> Option<usize>
    ensures value { result ≡ texts.last_len word }
    ensures few { IfSome result (λ len. len ≤ 3) }
{
    if word == 0 {
        Some(0)
    } else if word % 256 == 0 {
        None
    } else if word < 256 {
        Some(1)
    } else if word / 256 % 256 == 0 {
        None
    } else if word < 65536 {
        Some(2)
    } else {
        Some(3)
    }
}
