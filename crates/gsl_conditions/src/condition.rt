//! Whether a condition holds.

ghost use Rattle.std.specs.Prelude.{◌≡◌, ◌≤◌, length, IfOk, not, ◌==◌};
ghost use Rattle.std.specs.Option.{option_map};
ghost use Rattle.gsl_base.specs.Checked.{Gives};
ghost use Rattle.gsl_conditions.specs.Conditions as spec;
ghost use Rattle.gsl_conditions.specs.Reading.{start, read as reading};
ghost use Rattle.gsl_macros.specs.Spelling.{punct_of};
ghost use Rattle.gsl_macros.specs.Steps as steps;

use crate::defined::unasked;
use crate::operator::nests;
use crate::reader::Reader;
use gsl_base::{Code, Fault, Memory, Place, Raw, Refusal};
use gsl_macros::{Hid, MAX_DEPTH, Macros, Stream, all, fault};
use std::alloc::Global;

/// How many of the tokens `(`, `+`, `-`, `~` and `!` a condition has at most.
pub const MAX_NESTING: u32 = 256;

/// Whether the condition holds that stands behind the `#if` or `#elif` at a place, or `Source` with its
/// first fault: those of macros; E0902 where it nests too deeply; E0205 where it is malformed; E0204 and
/// E0206 in the order of evaluation. Its tokens, and those that macros put, are taken from the count.
#[tactic(auto, unfolding(crate::specs::Conditions::condition))]
pub fn holds(
    alloc: Global,
    macros: &Macros,
    place: Place,
    raws: &[Raw],
    left: &mut u32,
) -> Result<bool, Refusal>
    ensures { steps.Leaves result (λ b. (b, left.new)) (spec.condition macros.now place raws.now left.old) }
{
    count(raws, left)?;
    let tokens = unasked(alloc, &macros.table, raws)?;
    let mut stream = Stream::of(alloc, tokens)?;
    let tokens = all(alloc, macros, MAX_DEPTH, &mut stream, left)?;
    judged(alloc, place, tokens.as_slice())
}

/// Counts the tokens of a condition as they are written.
#[tactic(auto, unfolding(crate::specs::Conditions::counted))]
fn count(raws: &[Raw], left: &mut u32) -> Result<(), Refusal>
    ensures { steps.Leaves result (λ _. left.new) (spec.counted raws.now left.old) }
{
    let mut rest = raws;
    while let [raw, more @ ..] = rest {
        let now = *left;
        if now == 0 {
            return Err(fault(raw.place, Code::E0901));
        }
        *left = now - 1;
        rest = more;
    }
    Ok(())
}

fn nests_at(token: &Hid) -> bool
    ensures { result ≡ spec.nests_on (punct_of token.now.spelled) }
{
    match token.spelled.punct() {
        Some(punct) => nests(punct),
        None => false,
    }
}

/// The place of the first token that passes the limit on nesting.
#[tactic(auto, unfolding(crate::specs::Conditions::too_nested))]
fn too_nested(tokens: &[Hid]) -> Option<Place>
    ensures { result ≡ option_map (λ t. t.place) (spec.too_nested MAX_NESTING tokens.now) }
{
    let mut left = MAX_NESTING;
    let mut rest = tokens;
    while let [token, more @ ..] = rest {
        if nests_at(token) {
            if left == 0 {
                return Some(token.place);
            }
            left -= 1;
        }
        rest = more;
    }
    None
}

fn judged(alloc: Global, place: Place, tokens: &[Hid]) -> Result<bool, Refusal>
    ensures { Gives result (spec.judged place tokens.now) }
{
    if let Some(place) = too_nested(tokens) {
        return Err(fault(place, Code::E0902));
    }
    decided(place, read(alloc, tokens)?)
}

fn decided(place: Place, value: Option<Result<u32, Fault>>) -> Result<bool, Refusal>
    ensures { Gives result (spec.decided place value) }
{
    match value {
        None => Err(fault(place, Code::E0205)),
        Some(Ok(word)) => Ok(word != 0),
        Some(Err(fault)) => Err(Refusal::Source(fault)),
    }
}

/// The value of a condition, if it is well formed.
#[tactic(auto, unfolding(crate::specs::Reading::read))]
fn read(alloc: Global, tokens: &[Hid]) -> Result<Option<Result<u32, Fault>>, Memory>
    ensures { IfOk result (λ value. value ≡ reading start tokens.now) }
{
    let mut reader = Reader::new(alloc);
    let mut rest = tokens;
    while let [token, more @ ..] = rest {
        match reader.step(alloc, token)? {
            Some(next) => reader = next,
            None => return Ok(None),
        }
        rest = more;
    }
    Ok(reader.end())
}
