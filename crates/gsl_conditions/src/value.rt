//! What operators give.

ghost use Rattle.std.specs.Prelude.{◌≡◌, ◌<◌, ◌+◌, ◌-◌, ◌^◌, ◌%◌, IfOk};
ghost use Rattle.gsl_conditions.specs.Values as spec;

use crate::operator::{Binary, Unary};
use gsl_base::{Code, Fault, Kind, Memory, Place, Refusal};
use gsl_macros::Spelled;
use std::alloc::Global;

/// The word of a number that is an integer literal.
pub fn literal(alloc: Global, place: Place, spelled: &Spelled) -> Result<Option<u32>, Memory>
    ensures { IfOk result (λ word. word ≡ spec.literal place spelled.now) }
{
    match spelled.again(alloc)?.cook(alloc, place) {
        Ok(token) => Ok(word_in(&token.kind)),
        Err(Refusal::Source(_)) => Ok(None),
        Err(Refusal::Memory) => Err(Memory),
    }
}

fn word_in(kind: &Kind) -> Option<u32>
    ensures { result ≡ spec.word_in kind.now }
{
    match kind {
        Kind::Signed(word) | Kind::Unsigned(word) => Some(*word),
        _ => None,
    }
}

fn truth(holds: bool) -> u32
    ensures { result ≡ spec.truth holds }
{
    if holds { 1 } else { 0 }
}

fn unary_word(op: Unary, a: u32) -> u32
    ensures { result ≡ spec.unary_word op a }
{
    match op {
        Unary::Keep => a,
        Unary::Negate => 0u32.wrapping_sub(a),
        Unary::Flip => u32::MAX - a,
        Unary::Not => truth(a == 0),
    }
}

fn less(a: u32, b: u32) -> bool
    ensures { result ≡ spec.less a b }
{
    a.cast_signed() < b.cast_signed()
}

fn undefined(place: Place) -> Fault
    ensures { result ≡ record { place = place; code = Code.E0206 } }
{
    Fault {
        place,
        code: Code::E0206,
    }
}

fn quotient(place: Place, a: u32, b: u32) -> Result<u32, Fault>
    ensures { result ≡ spec.quotient place a b }
{
    if b == 0 {
        return Err(undefined(place));
    }
    Ok(
        a.cast_signed()
            .wrapping_div(b.cast_signed())
            .cast_unsigned(),
    )
}

fn rest(place: Place, a: u32, b: u32) -> Result<u32, Fault>
    ensures { result ≡ spec.rest place a b }
{
    if b == 0 {
        return Err(undefined(place));
    }
    Ok(
        a.cast_signed()
            .wrapping_rem(b.cast_signed())
            .cast_unsigned(),
    )
}

fn shifted_left(place: Place, a: u32, b: u32) -> Result<u32, Fault>
    ensures { result ≡ spec.shifted_left place a b }
{
    if b < 32 {
        Ok(a << b)
    } else {
        Err(undefined(place))
    }
}

fn shifted_right(place: Place, a: u32, b: u32) -> Result<u32, Fault>
    ensures { result ≡ spec.shifted_right place a b }
{
    if b < 32 {
        Ok((a.cast_signed() >> b).cast_unsigned())
    } else {
        Err(undefined(place))
    }
}

fn binary_word(op: Binary, place: Place, a: u32, b: u32) -> Result<u32, Fault>
    ensures { result ≡ spec.binary_word op place a b }
{
    match op {
        Binary::Mul => Ok(a.wrapping_mul(b)),
        Binary::Div => quotient(place, a, b),
        Binary::Rem => rest(place, a, b),
        Binary::Add => Ok(a.wrapping_add(b)),
        Binary::Sub => Ok(a.wrapping_sub(b)),
        Binary::Shl => shifted_left(place, a, b),
        Binary::Shr => shifted_right(place, a, b),
        Binary::Less => Ok(truth(less(a, b))),
        Binary::Greater => Ok(truth(less(b, a))),
        Binary::LessEq => Ok(truth(!less(b, a))),
        Binary::GreaterEq => Ok(truth(!less(a, b))),
        Binary::Equal => Ok(truth(a == b)),
        Binary::Unequal => Ok(truth(a != b)),
        Binary::And => Ok(a & b),
        Binary::Xor => Ok(a ^ b),
        Binary::Or => Ok(a | b),
        Binary::Both => Ok(truth(b != 0)),
        Binary::Either => Ok(truth(b != 0)),
    }
}

/// What `&&` and `||` give without a look at their right operand.
fn settles(op: Binary, a: u32) -> Option<u32>
    ensures { result ≡ spec.settles op a }
{
    match op {
        Binary::Both => { if a == 0 { Some(0) } else { None } }
        Binary::Either => { if a == 0 { None } else { Some(1) } }
        _ => None,
    }
}

pub(crate) fn unary_value(op: Unary, x: Result<u32, Fault>) -> Result<u32, Fault>
    ensures { result ≡ spec.unary_value op x }
{
    match x {
        Ok(a) => Ok(unary_word(op, a)),
        Err(fault) => Err(fault),
    }
}

pub(crate) fn binary_value(
    op: Binary,
    place: Place,
    x: Result<u32, Fault>,
    y: Result<u32, Fault>,
) -> Result<u32, Fault>
    ensures { result ≡ spec.binary_value op place x y }
{
    let a = match x {
        Ok(a) => a,
        Err(fault) => return Err(fault),
    };
    if let Some(word) = settles(op, a) {
        return Ok(word);
    }
    match y {
        Ok(b) => binary_word(op, place, a, b),
        Err(fault) => Err(fault),
    }
}
