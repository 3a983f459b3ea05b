//! One replacement.

ghost use Rattle.std.specs.Prelude.{◌≡◌, ℕ, ◌<◌, ◌≤◌, ◌+◌, ◌-◌, [], ◌∷◌, ◌++◌, length, Some, OnOk};
ghost use Rattle.std.specs.Option.{option_map};
ghost use Rattle.gsl_base.specs.Checked.{Gives};
ghost use Rattle.gsl_macros.specs.Expanding as spec;
ghost use Rattle.gsl_macros.specs.Hiding.{shared};
ghost use Rattle.gsl_macros.specs.Spelling.{number, word_of};
ghost use Rattle.gsl_macros.specs.Steps as steps;

use crate::hides::Hides;
use crate::spelled::{Mark, Spelled};
use crate::stream::{Hid, Stream};
use crate::table::{Body, Macro, Table};
use gsl_base::{Code, Fault, List, Memory, Place, Refusal, Text};
use std::alloc::Global;

/// The refusal for a fault at a place.
pub fn fault(place: Place, code: Code) -> Refusal
    ensures { result ≡ Refusal.Source (spec.at place code) }
{
    Refusal::Source(Fault { place, code })
}

/// Counts a token that is taken.
pub(crate) fn count(token: &Hid, left: &mut u32) -> Result<(), Refusal>
    ensures { steps.Leaves result (λ _. left.new) (spec.taken token.now left.old) }
{
    if token.fresh {
        let now = *left;
        if now == 0 {
            return Err(fault(token.place, Code::E0901));
        }
        *left = now - 1;
    }
    Ok(())
}

/// The macro that a token names and does not hide, with its number.
fn named<'t>(table: &'t Table, token: &Hid) -> Option<(usize, &'t Macro)>
    ensures { option_map (λ m. (m.0, m.1.now)) result ≡ spec.named table.now token.now }
{
    let name = token.spelled.word()?;
    let (number, meaning) = table.find(name)?;
    if token.hides.has(number) {
        None
    } else {
        Some((number, meaning))
    }
}

/// The macro that is replaced at a token, with its number.
#[tactic(auto, unfolding(crate::specs::Expanding::use_of))]
pub(crate) fn used<'t>(table: &'t Table, token: &Hid, rest: &Stream) -> Option<(usize, &'t Macro)>
    ensures { option_map (λ m. (m.0, m.1.now)) result ≡ spec.use_of table.now token.now rest.now }
{
    let (number, meaning) = named(table, token)?;
    if is_used(meaning, rest) {
        Some((number, meaning))
    } else {
        None
    }
}

fn is_used(meaning: &Macro, rest: &Stream) -> bool
    ensures { result ≡ spec.is_used meaning.now rest.now }
{
    match meaning {
        Macro::Function(_, _) => rest.opens(),
        _ => true,
    }
}

/// Adds tokens as a macro puts them.
fn add_hidden(
    alloc: Global,
    list: &mut List<Hid>,
    tokens: &[Hid],
    place: Place,
    more: &Hides,
) -> Result<(), Memory>
    ensures { OnOk result (list.new ≡ list.old ++ spec.hidden place more.now tokens.now) }
{
    let mut rest = tokens;
    while let [token, behind @ ..] = rest {
        list.push(Hid {
            spelled: token.spelled.again(alloc)?,
            place,
            hides: token.hides.joined(alloc, more)?,
            fresh: false,
        })?;
        rest = behind;
    }
    Ok(())
}

/// The argument of a parameter.
fn arg_of<'b>(mut params: &[Text], mut args: &'b [List<Hid>], name: &Text) -> Option<&'b List<Hid>>
    ensures { option_map (λ a. a.now) result ≡ spec.arg_of params.entry.now args.entry.now name.now }
{
    while let [param, more @ ..] = params {
        let [arg, behind @ ..] = args else {
            return None;
        };
        if param == name {
            return Some(arg);
        }
        params = more;
        args = behind;
    }
    None
}

/// The argument that a token of a body stands for.
fn arg_at<'b>(params: &[Text], args: &'b [List<Hid>], spelled: &Spelled) -> Option<&'b List<Hid>>
    ensures { option_map (λ a. a.now) result ≡ spec.arg_by params.now args.now (word_of spelled.now) }
{
    let name = spelled.word()?;
    arg_of(params, args, name)
}

/// Adds what a token of a body gives.
fn add_piece(
    alloc: Global,
    list: &mut List<Hid>,
    params: &[Text],
    args: &[List<Hid>],
    place: Place,
    more: &Hides,
    spelled: Spelled,
) -> Result<(), Memory>
    ensures { OnOk result (list.new ≡ list.old ++ spec.hidden place more.now (spec.piece params.now args.now place spelled)) }
{
    match arg_at(params, args, &spelled) {
        Some(arg) => add_hidden(alloc, list, arg.as_slice(), place, more),
        None => {
            let hides = more.again()?;
            list.push(Hid {
                spelled,
                place,
                hides,
                fresh: false,
            })
        }
    }
}

/// The body of a macro with the arguments in place, unless that is more than is left of the count.
#[tactic(auto, unfolding(crate::specs::Expanding::filled))]
fn fill(
    alloc: Global,
    params: &[Text],
    args: &[List<Hid>],
    place: Place,
    more: &Hides,
    body: &Body,
    left: u32,
) -> Result<List<Hid>, Refusal>
    ensures { Gives result (steps.counted place left (spec.filled params.now args.now place more.now body.now)) }
{
    if left == 0 {
        return Err(fault(place, Code::E0901));
    }
    let mut list = List::new(alloc);
    let mut rest = body.kinds();
    while let [kind, behind @ ..] = rest {
        add_piece(
            alloc,
            &mut list,
            params,
            args,
            place,
            more,
            Spelled::sharing(kind)?,
        )?;
        if list.len() >= left as usize {
            return Err(fault(place, Code::E0901));
        }
        rest = behind;
    }
    Ok(list)
}

/// Puts the body of a macro, with the arguments in place, in front of what is looked at.
pub(crate) fn put(
    alloc: Global,
    params: &[Text],
    args: &[List<Hid>],
    place: Place,
    more: &Hides,
    body: &Body,
    stream: &mut Stream,
    left: &mut u32,
) -> Result<(), Refusal>
    ensures { steps.Leaves result (λ _. (stream.new, left.new)) (spec.put place (spec.filled params.now args.now place more.now body.now) stream.old left.old) }
{
    let tokens = fill(alloc, params, args, place, more, body, *left)?;
    take_from(left, tokens.len());
    stream.put(tokens)?;
    Ok(())
}

/// Puts the body of a function macro for a use with these arguments, whose closing parenthesis has these hides.
pub(crate) fn put_call(
    alloc: Global,
    params: &[Text],
    args: &[List<Hid>],
    token: &Hid,
    number: usize,
    close: &Hides,
    body: &Body,
    stream: &mut Stream,
    left: &mut u32,
) -> Result<(), Refusal>
    ensures { steps.Leaves result (λ _. (stream.new, left.new)) (spec.put token.now.place (spec.filled params.now args.now token.now.place (number ∷ shared token.now.hides close.now) body.now) stream.old left.old) }
{
    let more = Hides::common(alloc, number, &token.hides, close)?;
    put(alloc, params, args, token.place, &more, body, stream, left)
}

/// Puts a number that is made in front of what is looked at.
#[tactic(auto, unfolding(crate::specs::Expanding::filled))]
pub(crate) fn put_number(
    alloc: Global,
    place: Place,
    more: Hides,
    made: u32,
    stream: &mut Stream,
    left: &mut u32,
) -> Result<(), Refusal>
    ensures { steps.Leaves result (λ _. (stream.new, left.new)) (spec.put place (spec.filled [] [] place more (number made ∷ [])) stream.old left.old) }
{
    if *left < 2 {
        return Err(fault(place, Code::E0901));
    }
    take_from(left, 1);
    stream.push(Hid {
        spelled: Spelled::made(alloc, made)?,
        place,
        hides: more,
        fresh: false,
    })?;
    Ok(())
}

/// Takes one and so many from the count.
fn take_from(left: &mut u32, most: usize)
    requires { most < left.old }
    ensures { left.new ≡ left.old - (most + 1) }
{
    let now = *left;
    *left = now - (most as u32 + 1);
}

/// Arguments, and the hides of the parenthesis that closes them.
#[derive(Drop)]
pub(crate) struct Call {
    pub args: List<List<Hid>>,
    pub hides: Hides,
}

/// Takes arguments and the parenthesis that closes them, or takes all where it is missing.
#[tactic(auto, unfolding(crate::specs::Expanding::split))]
fn split(alloc: Global, stream: &mut Stream, left: &mut u32) -> Result<Option<Call>, Refusal>
    ensures { steps.Leaves result (option_map (λ c. (c.args, c.hides, stream.new, left.new))) (steps.front [] [] (spec.split stream.old 0 left.old)) }
{
    let mut args = List::new(alloc);
    let mut arg = List::new(alloc);
    let mut inner = 0usize;
    while let Some(token) = stream.take() {
        count(&token, left)?;
        match token.spelled.mark() {
            Mark::Closes => {
                if inner == 0 {
                    args.push(arg)?;
                    return Ok(Some(Call {
                        args,
                        hides: token.hides,
                    }));
                }
                inner -= 1;
                arg.push(token.settled())?;
            }
            Mark::Parts => {
                if inner == 0 {
                    args.push(arg)?;
                    arg = List::new(alloc);
                } else {
                    arg.push(token.settled())?;
                }
            }
            Mark::Opens => {
                let Some(more) = inner.checked_add(1) else {
                    return Err(Refusal::Memory);
                };
                inner = more;
                arg.push(token.settled())?;
            }
            Mark::Stands => arg.push(token.settled())?,
        }
    }
    Ok(None)
}

/// The same with the `(` in front.
pub(crate) fn arguments(
    alloc: Global,
    stream: &mut Stream,
    left: &mut u32,
) -> Result<Option<Call>, Refusal>
    ensures { steps.Leaves result (option_map (λ c. (c.args, c.hides, stream.new, left.new))) (steps.front [] [] (spec.arguments stream.old left.old)) }
{
    let Some(open) = stream.take() else {
        return Ok(None);
    };
    count(&open, left)?;
    split(alloc, stream, left)
}

/// Whether there are as many arguments as parameters.
pub(crate) fn fits(params: &[Text], args: &[List<Hid>]) -> bool
    ensures { result ≡ spec.fits params.now args.now }
{
    args.len() == params.len() || (params.len() == 0 && is_one_empty(args))
}

fn is_one_empty(args: &[List<Hid>]) -> bool
    ensures { result ≡ spec.is_one_empty args.now }
{
    match args {
        [arg] => arg.as_slice().is_empty(),
        _ => false,
    }
}
