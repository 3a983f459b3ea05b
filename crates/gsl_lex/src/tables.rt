//! Looking up words and punctuators.

ghost use Rattle.std.specs.Prelude.{◌≡◌, ◌+◌, ◌<◌, ◌||◌, [], ◌∷◌, MatchOption, false, length, map};
ghost use Rattle.std.specs.Option.{option_map};
ghost use Rattle.gsl_base.specs.Prefix as prefix;
ghost use Rattle.gsl_lex.specs.Ascii.{lower_a};
ghost use Rattle.gsl_lex.specs.Bytes.{first_of};
ghost use Rattle.gsl_lex.specs.Refused as refused;
ghost use Rattle.gsl_lex.specs.Searching as searching;
ghost use Rattle.gsl_lex.specs.Spellings.{keywords};
ghost use Rattle.gsl_lex.specs.Tables as spec;

use crate::rows::{
    KEYWORDS, MARKS, MATRICES, MATRIX_SIZES, OPAQUE_KINDS, OPAQUES, REFUSED, SHADOW_KINDS,
    SHADOW_SAMPLERS, THREE_BYTES, TWO_BYTES,
};
use gsl_base::{Key, Punct};

/// How many bytes a refused word has at least.
const SHORTEST: usize = 3;

/// The punctuator of this one byte.
#[tactic(auto, using(crate::proofs::Seconds::one_none))]
pub fn one_of(first: u8) -> Option<Punct>
    ensures { result ≡ spec.punct_of (first ∷ []) }
{
    if is_mark(first) {
        mark_at(usize::from(first) - 33)
    } else {
        None
    }
}

/// Whether the byte is one from `!` to `~`.
fn is_mark(byte: u8) -> bool
    ensures { result ≡ searching.is_mark byte }
{
    b'!' <= byte && byte <= b'~'
}

/// The punctuator of the byte that is this one behind `!`.
fn mark_at(index: usize) -> Option<Punct>
    requires { index < 94 }
    ensures { result ≡ spec.punct_of ((33 + index) ∷ []) }
{
    item_at(&MARKS, index)
}

fn item_at<T: Copy>(items: &[T], index: usize) -> T
    requires { index < length items.now }
    ensures { searching.IsAt items.now index result }
{
    items[index]
}

/// Whether a punctuator has the byte as its second one.
pub fn is_second(byte: u8) -> bool
    ensures { result ≡ searching.is_second byte }
{
    matches!(byte, b'+' | b'-' | b'<' | b'=' | b'>' | b'&' | b'^' | b'|')
}

/// The punctuator of these two bytes.
#[tactic(auto, using(crate::proofs::Seconds::two_none))]
pub fn two_of(first: u8, second: u8) -> Option<Punct>
    ensures { result ≡ spec.punct_of (first ∷ second ∷ []) }
{
    if !is_second(second) {
        return None;
    }
    lookup(&TWO_BYTES, &[first, second])
}

/// The punctuator of these three bytes.
#[tactic(auto, using(crate::proofs::Seconds::three_none))]
pub fn three_of(first: u8, second: u8, third: u8) -> Option<Punct>
    ensures { result ≡ spec.punct_of (first ∷ second ∷ third ∷ []) }
{
    if !is_second(second) {
        return None;
    }
    lookup(&THREE_BYTES, &[first, second, third])
}

/// The keyword that is spelled so.
#[tactic(auto, using(crate::proofs::Letters::key_at, crate::proofs::Letters::key_none))]
pub fn key_of(spelling: &[u8]) -> Option<Key>
    ensures { result ≡ spec.key_of spelling.now }
{
    let letter = letter_of(spelling)?;
    lookup(keywords_under(letter), spelling)
}

/// Whether the word is one that the profile refuses.
#[tactic(auto, using(crate::proofs::Joints::refused_is, crate::proofs::Seconds::short_not_refused))]
pub fn is_refused(word: &[u8]) -> bool
    ensures { result ≡ spec.is_refused word.now }
{
    if word.len() < SHORTEST {
        return false;
    }
    stands_alone(word) || is_joined(word)
}

/// What the first row says that has the spelling.
fn lookup<T: Copy>(mut rows: &[(&[u8], T)], spelling: &[u8]) -> Option<T>
    ensures { result ≡ spec.lookup (map (λ row. (row.0.now, row.1)) rows.entry.now) spelling.now }
{
    while let [row, more @ ..] = rows {
        if row.0 == spelling {
            return Some(row.1);
        }
        rows = more;
    }
    None
}

/// The number of the letter that a word begins with, `a` being 0, if it begins with one of `a` to `z`.
fn letter_of(word: &[u8]) -> Option<usize>
    ensures { MatchOption result (searching.is_lower (first_of word.now) ≡ false) (λ letter. (letter < 26) × (first_of word.now ≡ lower_a + letter)) }
{
    match word {
        [first @ b'a'..=b'z', ..] => Some(usize::from(*first - b'a')),
        _ => None,
    }
}

/// The rows under a letter.
fn rows_at<'a, T>(tables: &[&'a [T]], letter: usize) -> &'a [T]
    requires { letter < length tables.now }
    ensures { searching.IsAt tables.now letter result }
{
    tables[letter]
}

/// The keywords that begin with a letter.
fn keywords_under(letter: usize) -> &'static [(&'static [u8], Key)]
    requires { letter < 26 }
    ensures { map (λ row. (row.0.now, row.1)) result.now ≡ searching.under (λ row. row.0) keywords letter }
{
    rows_at(&KEYWORDS, letter)
}

/// The refused words that stand alone and begin with a letter.
fn refused_under(letter: usize) -> &'static [&'static [u8]]
    requires { letter < 26 }
    ensures { map (λ row. row.now) result.now ≡ searching.under (λ row. row) refused.alone letter }
{
    rows_at(&REFUSED, letter)
}

#[tactic(auto, using(crate::proofs::Letters::alone_at, crate::proofs::Letters::alone_none))]
fn stands_alone(word: &[u8]) -> bool
    ensures { result ≡ spec.among refused.alone word.now }
{
    match letter_of(word) {
        Some(letter) => is_among(refused_under(letter), word),
        None => false,
    }
}

/// Whether the word is one of the matrices, samplers, textures and images.
fn is_joined(word: &[u8]) -> bool
    ensures { result ≡ (searching.of_family refused.matrices refused.matrix_sizes word.now || (searching.of_family refused.opaques refused.opaque_kinds word.now || searching.of_family refused.shadow_samplers refused.shadow_kinds word.now)) }
{
    is_matrix(word) || is_opaque(word) || is_shadow(word)
}

#[tactic(auto, unfolding(crate::specs::Refused::matrices, crate::specs::Refused::matrix_sizes))]
fn is_matrix(word: &[u8]) -> bool
    ensures { result ≡ searching.of_family refused.matrices refused.matrix_sizes word.now }
{
    is_of_family(&MATRICES, &MATRIX_SIZES, word)
}

#[tactic(auto, unfolding(crate::specs::Refused::opaques, crate::specs::Refused::opaque_kinds))]
fn is_opaque(word: &[u8]) -> bool
    ensures { result ≡ searching.of_family refused.opaques refused.opaque_kinds word.now }
{
    is_of_family(&OPAQUES, &OPAQUE_KINDS, word)
}

#[tactic(auto, unfolding(crate::specs::Refused::shadow_samplers, crate::specs::Refused::shadow_kinds))]
fn is_shadow(word: &[u8]) -> bool
    ensures { result ≡ searching.of_family refused.shadow_samplers refused.shadow_kinds word.now }
{
    is_of_family(&SHADOW_SAMPLERS, &SHADOW_KINDS, word)
}

fn is_among(mut rows: &[&[u8]], word: &[u8]) -> bool
    ensures { result ≡ spec.among (map (λ row. row.now) rows.entry.now) word.now }
{
    while let [row, more @ ..] = rows {
        if *row == word {
            return true;
        }
        rows = more;
    }
    false
}

/// Whether the word is one of the first texts and one of the second.
fn is_of_family(mut heads: &[&[u8]], tails: &[&[u8]], word: &[u8]) -> bool
    ensures { result ≡ searching.of_family (map (λ row. row.now) heads.entry.now) (map (λ row. row.now) tails.now) word.now }
{
    while let [head, more @ ..] = heads {
        if is_joint(head, tails, word) {
            return true;
        }
        heads = more;
    }
    false
}

/// Whether the word is this text and one of the others.
fn is_joint(head: &[u8], tails: &[&[u8]], word: &[u8]) -> bool
    ensures { result ≡ searching.is_joint head.now (map (λ row. row.now) tails.now) word.now }
{
    match after(head, word) {
        Some(tail) => is_among(tails, tail),
        None => false,
    }
}

/// The rest of the word after what it begins with, if it begins so.
fn after<'a>(head: &[u8], word: &'a [u8]) -> Option<&'a [u8]>
    ensures { option_map (λ rest. rest.now) result ≡ prefix.after head.now word.now }
{
    word.strip_prefix(head)
}
