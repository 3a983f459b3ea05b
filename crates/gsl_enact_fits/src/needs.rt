//! How many bytes types need.

ghost use Rattle.std.specs.Prelude.{◌≡◌, ◌+◌, ◌-◌, ◌*◌, ◌^◌, ◌<◌, ◌≤◌, ◌∷◌, [], length, MatchOption};
ghost use Rattle.gsl_enact_fits.specs.Passes as spec;
ghost use Rattle.gsl_enact_values.specs.Search as search;
ghost use Rattle.gsl_enact_values.specs.Search.{front};
ghost use Rattle.gsl_instr.specs.Instructions as table;
ghost use Rattle.gsl_kinds.specs.Seen.{shape_seen};
ghost use Rattle.gsl_valid.specs.DecorationRules.{pointee as pointee_of};
ghost use Rattle.gsl_valid.specs.Kinds.{shape_of};
ghost use Rattle.gsl_valid.specs.LayoutRules as rules;
ghost use Rattle.gsl_valid.specs.Placed.{count_of_words};
ghost use Rattle.gsl_valid.specs.Search.{whole};
ghost use Rattle.gsl_valid.specs.Types as types;

use gsl_decorations::{Decorations, pointee};
use gsl_enact_values::latest;
use gsl_ids::Definitions;
use gsl_instr::enumerant::decoration;
use gsl_kinds::{Shape, kind_at, shape_in, value_of};

/// A size that is told of all that are greater too: no list has so many bytes.
const MOST_TOLD: u128 = 18446744073709551616;

/// What is told of a size.
fn told(size: u128) -> u128
    ensures { result ≡ spec.told size }
{
    if size < MOST_TOLD { size } else { MOST_TOLD }
}

/// The bytes that the type needs to which a pointer type points.
pub(crate) fn need_of(decorations: &Decorations<'_>, type_: u32) -> u128
    requires { count_of_words decorations.now < 2 ^ 32 }
    ensures { result ≡ spec.told (rules.need decorations.now (whole decorations.now) (pointee_of decorations.now type_)) }
{
    let definitions = decorations.definitions();
    need_in(
        decorations,
        definitions.module().instrs.len(),
        pointee(definitions, type_),
    )
}

/// The last instruction that defines an id, among so many at the front of the module. Its operands are fewer than the words of the file.
fn latest_short<'a>(
    definitions: &Definitions<'a>,
    count: usize,
    id: u32,
) -> Option<(usize, u16, &'a [u32])>
    requires { count_of_words definitions.now < 2 ^ 32 }
    ensures { MatchOption result (search.from_definition (front definitions.now count) id ≡ [])
        (λ p. (search.from_definition (front definitions.now count) id ≡ record { op = p.1; args = p.2.now } ∷ front definitions.now p.0) × (p.0 < count) × (1 + length p.2.now < 2 ^ 32)) }
{
    match latest(definitions, count, id) {
        None => None,
        Some((at, op, args)) => Some((at, op, args)),
    }
}

/// What a type needs, where its definition is among so many instructions at the front of the module.
#[cycle(need)]
fn need_in(decorations: &Decorations<'_>, count: usize, id: u32) -> u128
    requires { count_of_words decorations.now < 2 ^ 32 }
    ensures { result ≡ spec.told (rules.need decorations.now (front decorations.now count) id) }
{
    match latest_short(decorations.definitions(), count, id) {
        None => 0,
        Some((at, op, args)) => need_here(decorations, at, id, op, args),
    }
}

/// What the type of an instruction needs that stands behind so many others.
#[cycle(need)]
fn need_here(decorations: &Decorations<'_>, count: usize, id: u32, op: u16, args: &[u32]) -> u128
    requires words { count_of_words decorations.now < 2 ^ 32 }
    requires short { 1 + length args.now < 2 ^ 32 }
    ensures { result ≡ spec.told (rules.need_as decorations.now (rules.need decorations.now (front decorations.now count)) id (shape_of (table.read op args.now))) }
{
    need_as(decorations, count, id, shape_in(kind_at(op, args)))
}

/// What a type of an id needs.
#[cycle(need)]
fn need_as(decorations: &Decorations<'_>, count: usize, id: u32, shape: Shape<'_>) -> u128
    requires words { count_of_words decorations.now < 2 ^ 32 }
    requires short { length (types.parts_in (shape_seen shape)) < 2 ^ 32 }
    ensures { result ≡ spec.told (rules.need_as decorations.now (rules.need decorations.now (front decorations.now count)) id (shape_seen shape.entry)) }
{
    match shape {
        Shape::Bool | Shape::Int { .. } => 4,
        Shape::Vector { count: size, .. } => told(4 * u128::from(size)),
        Shape::Array { element, length } => {
            let stride = decorations.number_on(decoration::ARRAY_STRIDE, id);
            let length = value_of(decorations.definitions(), length);
            let need = need_in(decorations, count, element);
            told(array_need(stride, length, need))
        }
        Shape::Struct { id, members } => end_of_last(decorations, count, id, members),
        _ => 0,
    }
}

/// The end of the last member of a struct.
#[cycle(need)]
fn end_of_last(decorations: &Decorations<'_>, count: usize, id: u32, members: &[u32]) -> u128
    requires words { count_of_words decorations.now < 2 ^ 32 }
    requires short { length members.now < 2 ^ 32 }
    ensures { result ≡ spec.told (rules.end_of_last decorations.now (rules.need decorations.now (front decorations.now count)) id 0 0 members.now) }
{
    let mut end = 0;
    let mut member = 0;
    while (member as usize) < members.len() {
        let offset = decorations.number_on_member(decoration::OFFSET, id, member);
        let need = need_in(decorations, count, members[member as usize]);
        end = told(end_after(offset, need));
        member += 1;
    }
    end
}

/// What an array needs, by its stride, its length and what an element needs.
fn array_need(stride: Option<u32>, length: Option<u32>, need: u128) -> u128
    requires { need ≤ 2 ^ 64 }
    ensures { result ≡ rules.array_of stride length (λ stride count. stride * (count - 1) + need) }
{
    match stride {
        Some(stride) => match length {
            Some(count) => strides(stride, count.saturating_sub(1)) + need,
            None => 0,
        },
        None => 0,
    }
}

/// So many strides.
fn strides(stride: u32, count: u32) -> u128
    ensures product { result ≡ stride * count }
    ensures small { result ≤ 18446744065119617025 }
{
    u128::from(stride) * u128::from(count)
}

/// The end of what stands at an offset.
fn end_after(offset: Option<u32>, size: u128) -> u128
    requires { size ≤ 2 ^ 64 }
    ensures { result ≡ rules.end_after offset size }
{
    match offset {
        Some(offset) => u128::from(offset) + size,
        None => 0,
    }
}
