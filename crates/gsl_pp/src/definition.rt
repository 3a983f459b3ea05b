//! `#define` and `#undef`.

ghost use Rattle.std.specs.Prelude.{◌≡◌, ℕ, List, [], ◌∷◌, map, None, IfOk, MatchOption};
ghost use Rattle.std.specs.Option.{option_map};
ghost use Rattle.std.specs.List.{list_any};
ghost use Rattle.gsl_base.specs.Checked.{Gives, GivesBy};
ghost use Rattle.gsl_macros.specs.Spelling.{number as number_as};
ghost use Rattle.gsl_macros.specs.Steps as steps;
ghost use Rattle.gsl_pp.specs.Definitions as spec;

use crate::word::{is_hash, is_reserved, word};
use gsl_base::{Code, List, Memory, Place, Raw, RawKind, Refusal, Text};
use gsl_macros::{Body, Macro, Mark, Table, fault, mark_of};
use std::alloc::Global;
use std::marker::Model;
use std::rc::Rc;

fn same_kind(a: &RawKind, b: &RawKind) -> bool
    ensures { result ≡ spec.same_kind a.now b.now }
{
    match (a, b) {
        (RawKind::Word(a), RawKind::Word(b)) => a == b,
        (RawKind::Number(a), RawKind::Number(b)) => a == b,
        (RawKind::Punct(a), RawKind::Punct(b)) => *a == *b,
        (RawKind::Stray(a), RawKind::Stray(b)) => *a == *b,
        _ => false,
    }
}

/// Whether two lists have the same kinds and spellings.
fn same_lists(mut a: &[Rc<RawKind>], mut b: &[Rc<RawKind>]) -> bool
    ensures { result ≡ spec.same_kinds (map (λ k. k.value) a.entry.now) (map (λ k. k.value) b.entry.now) }
{
    while let [first, more @ ..] = a {
        let [other, rest @ ..] = b else {
            return false;
        };
        if !same_kind(first, other) {
            return false;
        }
        a = more;
        b = rest;
    }
    b.is_empty()
}

/// Whether two bodies have the same kinds and spellings.
fn same_kinds(a: &Body, b: &Body) -> bool
    ensures { result ≡ spec.same_kinds a.now b.now }
{
    same_lists(a.kinds(), b.kinds())
}

/// Whether two lists of parameters are the same.
fn same_names(mut a: &[Text], mut b: &[Text]) -> bool
    ensures { result ≡ spec.same_names a.entry.now b.entry.now }
{
    while let [first, more @ ..] = a {
        let [other, rest @ ..] = b else {
            return false;
        };
        if first != other {
            return false;
        }
        a = more;
        b = rest;
    }
    b.is_empty()
}

/// The kind of a number that is made.
fn number_kind(alloc: Global, number: u32) -> Result<RawKind, Memory>
    ensures { IfOk result (λ kind. kind ≡ number_as number) }
{
    let text = format!(in alloc; "{number}")?;
    Ok(RawKind::Number(Text::from_string(text)))
}

/// Whether a body is this number alone.
fn is_number_alone(alloc: Global, number: u32, body: &Body) -> Result<bool, Memory>
    ensures { IfOk result (λ same. same ≡ spec.same_kinds (number_as number ∷ []) body.now) }
{
    let [kind, more @ ..] = body.kinds() else {
        return Ok(false);
    };
    let made = number_kind(alloc, number)?;
    Ok(same_kind(&made, kind) && more.is_empty())
}

/// Whether a macro that there is is one that is defined.
fn same_macro(alloc: Global, old: &Macro, new: &Macro) -> Result<bool, Memory>
    ensures { IfOk result (λ same. same ≡ spec.same_macro old.now new.now) }
{
    match (old, new) {
        (Macro::Number(number), Macro::Object(body)) => is_number_alone(alloc, *number, body),
        (Macro::Object(a), Macro::Object(b)) => Ok(same_kinds(a, b)),
        (Macro::Function(params, a), Macro::Function(names, b)) => {
            Ok(same_names(params.as_slice(), names.as_slice()) && same_kinds(a, b))
        }
        _ => Ok(false),
    }
}

/// What stands on a line from a token on. Contracts see the tokens.
#[derive(Drop)]
pub(crate) struct Line<'a> {
    raws: &'a [Raw],
}

impl<'a> Model for Line<'a> {
    ghost use Rattle.std.specs.Prelude.{List as Plain};
    ghost use Rattle.gsl_base.specs.declared.token.Raw.{Raw as OneRaw};

    ghost Value = { Plain OneRaw };

    ghost view = { λ l. l.raws.now };
}

/// The parameters of a function macro, and what stands behind them.
#[derive(Drop)]
pub(crate) struct Listed<'a> {
    pub params: List<Text>,
    pub body: Line<'a>,
}

fn has(names: &[Text], name: &Text) -> bool
    ensures { result ≡ spec.has names.now name.now }
{
    let mut rest = names;
    while let [first, more @ ..] = rest {
        if first == name {
            return true;
        }
        rest = more;
    }
    false
}

/// The first two tokens, and those behind them.
#[tactic(auto, unfolding(crate::specs::Definitions::listed))]
fn first_two(raws: &[Raw]) -> Option<(&Raw, &Raw, &[Raw])>
    ensures { MatchOption result ((names : List (List ℕ)) → spec.listed names raws.now ≡ None) (λ r. raws.now ≡ r.0.now ∷ (r.1.now ∷ r.2.now)) }
{
    let [first, behind @ ..] = raws else {
        return None;
    };
    let [second, more @ ..] = behind else {
        return None;
    };
    Some((first, second, more))
}

/// The parameters behind the `(`, where there is one at least; none where one is no word or stands twice.
#[tactic(auto, unfolding(crate::specs::Definitions::listed))]
fn params_from<'a>(alloc: Global, raws: &'a [Raw]) -> Result<Option<Listed<'a>>, Memory>
    ensures { IfOk result (λ l. l ≡ spec.listed [] raws.now) }
{
    let mut params = List::new(alloc);
    let mut rest = raws;
    while let Some((param, mark, more)) = first_two(rest) {
        let Some(name) = word(param) else {
            return Ok(None);
        };
        if has(params.as_slice(), name) {
            return Ok(None);
        }
        params.push(Text::from_str(alloc, name.as_str())?)?;
        match mark_of(&mark.kind) {
            Mark::Closes => {
                return Ok(Some(Listed {
                    params,
                    body: Line { raws: more },
                }));
            }
            Mark::Parts => rest = more,
            _ => return Ok(None),
        }
    }
    Ok(None)
}

/// The parameters behind the `(`.
fn parameters<'a>(alloc: Global, raws: &'a [Raw]) -> Result<Option<Listed<'a>>, Memory>
    ensures { IfOk result (λ l. l ≡ spec.parameters raws.now) }
{
    let [first, more @ ..] = raws else {
        return Ok(None);
    };
    match mark_of(&first.kind) {
        Mark::Closes => Ok(Some(Listed {
            params: List::new(alloc),
            body: Line { raws: more },
        })),
        _ => params_from(alloc, raws),
    }
}

fn has_hash(raws: &[Raw]) -> bool
    ensures { result ≡ spec.has_hash raws.now }
{
    let mut rest = raws;
    while let [first, more @ ..] = rest {
        if is_hash(first) {
            return true;
        }
        rest = more;
    }
    false
}

fn object(alloc: Global, place: Place, body: &[Raw]) -> Result<Macro, Refusal>
    ensures { Gives result (spec.object place body.now) }
{
    if has_hash(body) {
        return Err(fault(place, Code::E0215));
    }
    Ok(Macro::Object(Body::of(alloc, body)?))
}

fn function(alloc: Global, place: Place, list: Option<Listed>) -> Result<Macro, Refusal>
    ensures { Gives result (spec.function place list.entry) }
{
    let Some(list) = list else {
        return Err(fault(place, Code::E0214));
    };
    if has_hash(list.body.raws) {
        return Err(fault(place, Code::E0215));
    }
    Ok(Macro::Function(list.params, Body::of(alloc, list.body.raws)?))
}

fn has_list(raw: &Raw) -> bool
    ensures { result ≡ spec.has_list raw.now }
{
    !raw.spaced && matches!(mark_of(&raw.kind), Mark::Opens)
}

/// What stands behind the name.
fn meaning(alloc: Global, place: Place, raws: &[Raw]) -> Result<Macro, Refusal>
    ensures { Gives result (spec.meaning place raws.now) }
{
    if let [first, more @ ..] = raws {
        if has_list(first) {
            return function(alloc, place, parameters(alloc, more)?);
        }
    }
    object(alloc, place, raws)
}

fn give(
    alloc: Global,
    place: Place,
    table: &mut Table,
    name: &Text,
    new: Macro,
) -> Result<(), Refusal>
    ensures { steps.Leaves result (λ _. table.new) (spec.given place table.old name.now new) }
{
    if let Some((_, old)) = table.find(name) {
        if same_macro(alloc, old, &new)? {
            return Ok(());
        }
        return Err(fault(place, Code::E0209));
    }
    table.set(Text::from_str(alloc, name.as_str())?, new)?;
    Ok(())
}

/// What `#define` does to the macros; this stands behind the word.
pub(crate) fn define(
    alloc: Global,
    place: Place,
    table: &mut Table,
    raws: &[Raw],
) -> Result<(), Refusal>
    ensures { steps.Leaves result (λ _. table.new) (spec.define place table.old raws.now) }
{
    let [first, more @ ..] = raws else {
        return Err(fault(place, Code::E0201));
    };
    let Some(name) = word(first) else {
        return Err(fault(place, Code::E0201));
    };
    if is_reserved(name) {
        return Err(fault(place, Code::E0210));
    }
    let new = meaning(alloc, place, more)?;
    give(alloc, place, table, name, new)
}

/// The one word that stands behind the word of a directive.
pub(crate) fn one_name(place: Place, raws: &[Raw]) -> Result<&Text, Refusal>
    ensures { GivesBy (λ name. name.now) result (spec.one_name place raws.now) }
{
    let [first, more @ ..] = raws else {
        return Err(fault(place, Code::E0201));
    };
    match word(first) {
        Some(name) => {
            if more.is_empty() {
                Ok(name)
            } else {
                Err(fault(place, Code::E0201))
            }
        }
        None => Err(fault(place, Code::E0201)),
    }
}

/// What `#undef` does to the macros; this stands behind the word.
pub(crate) fn undef(place: Place, table: &mut Table, raws: &[Raw]) -> Result<(), Refusal>
    ensures { steps.Leaves result (λ _. table.new) (spec.undef place table.old raws.now) }
{
    let name = one_name(place, raws)?;
    if is_reserved(name) {
        return Err(fault(place, Code::E0210));
    }
    table.remove(name);
    Ok(())
}
