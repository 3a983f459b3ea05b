//! `defined`, which is replaced before macros are.

ghost use Rattle.std.specs.Prelude.{◌≡◌, ◌≤◌, ◌+◌, length, IfSome, IfOk};
ghost use Rattle.std.specs.Option.{option_map};
ghost use Rattle.gsl_conditions.specs.Conditions as spec;
ghost use Rattle.gsl_macros.specs.Expanding.{plain as plain_as};
ghost use Rattle.gsl_macros.specs.Spelling.{word_of};

use crate::reader::is_defined;
use gsl_base::{List, Memory, Place, Raw, RawKind, Text};
use gsl_macros::{Hid, Hides, Mark, Spelled, Table, mark_of};
use std::alloc::Global;

fn word(raw: &Raw) -> Option<&Text>
    ensures { option_map (λ t. t.now) result ≡ word_of raw.now.kind }
{
    match &raw.kind {
        RawKind::Word(text) => Some(text),
        _ => None,
    }
}

/// A name that is asked for behind `defined`, and how many tokens ask for it.
fn asked(raws: &[Raw]) -> Option<(&Text, usize)>
    ensures value { option_map (λ r. (r.0.now, r.1)) result ≡ spec.asked raws.now }
    ensures within { IfSome result (λ r. r.1 ≤ length raws.now) }
{
    let [first, more @ ..] = raws else {
        return None;
    };
    if let Some(name) = word(first) {
        return Some((name, 1));
    }
    match mark_of(&first.kind) {
        Mark::Opens => asked_within(more),
        _ => None,
    }
}

fn asked_within(raws: &[Raw]) -> Option<(&Text, usize)>
    ensures value { option_map (λ r. (r.0.now, r.1)) result ≡ spec.asked_within raws.now }
    ensures within { IfSome result (λ r. r.1 ≤ length raws.now + 1) }
{
    let [first, second, ..] = raws else {
        return None;
    };
    let name = word(first)?;
    match mark_of(&second.kind) {
        Mark::Closes => Some((name, 3)),
        _ => None,
    }
}

fn is_defined_at(raw: &Raw) -> bool
    ensures { result ≡ spec.is_defined_on (word_of raw.now.kind) }
{
    match word(raw) {
        Some(word) => is_defined(word),
        None => false,
    }
}

fn plain(place: Place, spelled: Spelled) -> Hid
    ensures { result ≡ plain_as place spelled }
{
    Hid {
        spelled,
        place,
        hides: Hides::none(),
        fresh: false,
    }
}

fn answer(table: &Table, name: &Text) -> u32
    ensures { result ≡ spec.answer table.now name.now }
{
    if table.find(name).is_some() { 1 } else { 0 }
}

/// The tokens of a condition once `defined` is replaced.
#[tactic(auto, using(crate::proofs::Skips::unasked_skips), unfolding(crate::specs::Conditions::unasked))]
pub(crate) fn unasked(alloc: Global, table: &Table, raws: &[Raw]) -> Result<List<Hid>, Memory>
    ensures { IfOk result (λ list. list ≡ spec.unasked table.now raws.now 0) }
{
    let mut list = List::new(alloc);
    let mut rest = raws;
    while let [raw, more @ ..] = rest {
        rest = more;
        if is_defined_at(raw) {
            if let Some((name, count)) = asked(more) {
                let made = Spelled::made(alloc, answer(table, name))?;
                list.push(plain(raw.place, made))?;
                rest = &more[count..];
                continue;
            }
        }
        list.push(plain(raw.place, Spelled::copy_of(alloc, &raw.kind)?))?;
    }
    Ok(list)
}
