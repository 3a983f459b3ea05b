//! The moves: each gives out the first token or replaces it.

ghost use Rattle.std.specs.Prelude.{◌≡◌, ℕ, ◌<◌, ◌+◌, [], ◌∷◌, ◌++◌, length, Some, MatchOption};
ghost use Rattle.std.specs.Option.{option_map};
ghost use Rattle.gsl_macros.specs.Expanding as spec;
ghost use Rattle.gsl_macros.specs.Steps as steps;

use crate::expand::{arguments, count, fault, fits, put, put_call, put_number, used};
use crate::hides::Hides;
use crate::stream::{Hid, Stream, copied};
use crate::table::{Body, Macro, Macros};
use gsl_base::{Code, List, Raw, Refusal, Text};
use std::alloc::Global;

/// How deep the uses of function macros nest in one another's arguments.
pub const MAX_DEPTH: u32 = 256;

/// The next token, where it stands so in the source, names no macro and the count allows it: most tokens do, and are given out as they
/// are. Elsewhere nothing changes, and `next` gives the token.
#[tactic(auto, using(crate::proofs::Drawn::gives_plain))]
pub fn next_plain(macros: &Macros, stream: &mut Stream, left: &mut u32) -> Option<Raw>
    ensures { MatchOption result ((stream.new ≡ stream.old) × (left.new ≡ left.old)) (λ raw. (depth : ℕ) → spec.traced macros.now depth stream.old left.old ≡ spec.give (spec.fresh raw) (spec.traced macros.now depth stream.new left.new)) }
{
    let now = *left;
    if now == 0 {
        return None;
    }
    let raw = stream.take_plain(&macros.table)?;
    *left = now - 1;
    Some(raw)
}

/// The next token that is given out, where arguments may nest so deep.
#[cycle(moves)]
pub fn next(
    alloc: Global,
    macros: &Macros,
    depth: u32,
    stream: &mut Stream,
    left: &mut u32,
) -> Result<Option<Hid>, Refusal>
    ensures drawn { steps.Draws result (spec.traced macros.now depth stream.old left.old) (spec.traced macros.now depth stream.new left.new) left.new }
    ensures less { steps.Less result (left.new + length stream.new) (left.old + length stream.old) }
{
    while let Some(token) = stream.take() {
        count(&token, left)?;
        let Some((number, found)) = used(&macros.table, &token, stream) else {
            return Ok(Some(token));
        };
        replace(alloc, macros, depth, &token, number, found, stream, left)?;
    }
    Ok(None)
}

/// Replaces a token that names a macro.
#[cycle(moves)]
#[tactic(auto, unfolding(crate::specs::Expanding::replaced))]
fn replace(
    alloc: Global,
    macros: &Macros,
    depth: u32,
    token: &Hid,
    number: usize,
    found: &Macro,
    stream: &mut Stream,
    left: &mut u32,
) -> Result<(), Refusal>
    ensures { steps.Leaves result (λ _. (stream.new, left.new)) (spec.replaced (spec.expander macros.now depth) macros.now token.now (number, found.now) stream.old left.old) }
{
    if let Macro::Function(params, body) = found {
        return call(
            alloc,
            macros,
            depth,
            token,
            number,
            params.as_slice(),
            body,
            stream,
            left,
        );
    }
    let more = Hides::with(alloc, number, &token.hides)?;
    let place = token.place;
    match found {
        Macro::Line => put_number(
            alloc,
            place,
            more,
            macros.shift.shown(place.line),
            stream,
            left,
        ),
        Macro::File => put_number(alloc, place, more, macros.shift.file, stream, left),
        Macro::Number(value) => put_number(alloc, place, more, *value, stream, left),
        Macro::Object(body) => put(alloc, &[], &[], place, &more, body, stream, left),
        Macro::Function(_, _) => unreachable!(),
    }
}

/// Replaces the use of a function macro.
#[cycle(moves)]
fn call(
    alloc: Global,
    macros: &Macros,
    depth: u32,
    token: &Hid,
    number: usize,
    params: &[Text],
    body: &Body,
    stream: &mut Stream,
    left: &mut u32,
) -> Result<(), Refusal>
    ensures { steps.Leaves result (λ _. (stream.new, left.new)) (spec.called (spec.expander macros.now depth) token.now number params.now body.now (spec.arguments stream.old left.old)) }
{
    let Some(parts) = arguments(alloc, stream, left)? else {
        return Err(fault(token.place, Code::E0208));
    };
    if !fits(params, parts.args.as_slice()) {
        return Err(fault(token.place, Code::E0207));
    }
    let args = each(alloc, macros, depth, token, parts.args.as_slice(), left)?;
    put_call(
        alloc,
        params,
        args.as_slice(),
        token,
        number,
        &parts.hides,
        body,
        stream,
        left,
    )
}

/// Expands the arguments of a use from left to right.
#[cycle(moves)]
#[tactic(auto, unfolding(crate::specs::Expanding::each))]
fn each(
    alloc: Global,
    macros: &Macros,
    depth: u32,
    token: &Hid,
    args: &[List<Hid>],
    left: &mut u32,
) -> Result<List<List<Hid>>, Refusal>
    ensures { steps.Leaves result (λ list. (list, left.new)) (spec.each (spec.expander macros.now depth) token.now.place args.now left.old) }
{
    let mut list = List::new(alloc);
    let mut rest = args;
    while let [arg, more @ ..] = rest {
        list.push(expand(alloc, macros, depth, token, arg.as_slice(), left)?)?;
        rest = more;
    }
    Ok(list)
}

/// Expands an argument of a use alone.
#[cycle(moves)]
#[tactic(auto, using(crate::proofs::Drawn::expander_below), unfolding(crate::specs::Expanding::expander))]
fn expand(
    alloc: Global,
    macros: &Macros,
    depth: u32,
    token: &Hid,
    tokens: &[Hid],
    left: &mut u32,
) -> Result<List<Hid>, Refusal>
    ensures { steps.Leaves result (λ list. (list, left.new)) (spec.expander macros.now depth token.now.place tokens.now left.old) }
{
    if depth == 0 {
        return Err(fault(token.place, Code::E0902));
    }
    let mut stream = Stream::of(alloc, copied(alloc, tokens)?)?;
    all(alloc, macros, depth - 1, &mut stream, left)
}

/// All tokens that are given out.
#[cycle(moves)]
pub fn all(
    alloc: Global,
    macros: &Macros,
    depth: u32,
    stream: &mut Stream,
    left: &mut u32,
) -> Result<List<Hid>, Refusal>
    ensures { steps.Leaves result (λ list. (list, left.new)) (spec.whole (spec.traced macros.now depth stream.old left.old)) }
{
    let mut list = List::new(alloc);
    while let Some(token) = next(alloc, macros, depth, stream, left)? {
        list.push(token)?;
    }
    Ok(list)
}
