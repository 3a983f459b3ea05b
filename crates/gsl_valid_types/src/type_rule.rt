//! Types.

ghost use Rattle.std.specs.Prelude.{◌≡◌, ◌^◌, ◌<◌, [], length, drop, IfOk};
ghost use Rattle.std.specs.List.{list_all};
ghost use Rattle.gsl_kinds.specs.Seen.{shape_seen};
ghost use Rattle.gsl_valid.specs.Placed.{count_of_words};
ghost use Rattle.gsl_valid.specs.TypeRules as spec;
ghost use Rattle.gsl_valid_types.specs.TypeKeys as keys;

use crate::known::Known;
use gsl_base::Memory;
use gsl_ids::{Definitions, Each};
use gsl_kinds::{
    Kind, Shape, is_bool, is_int, is_local_pointer, is_runtime, is_value_type, is_void, kind_at,
    value_of,
};
use std::alloc::Global;

/// The place of the first type that is not made as it may be, or that is declared again and may not be, which breaks V4.
pub fn types(alloc: Global, definitions: &Definitions<'_>) -> Result<Option<u32>, Memory>
    requires length { length definitions.now.instrs < 2 ^ 32 }
    requires words { count_of_words definitions.now < 2 ^ 32 }
    ensures { IfOk result (λ place. place ≡ spec.types definitions.now) }
{
    let place = first_badly_made(alloc, definitions, Each::new(definitions.module()))?;
    Ok(place)
}

/// The same, among instructions.
#[tactic(auto, unfolding(crate::specs::TypeKeys::first_bad))]
fn first_badly_made<'a>(
    alloc: Global,
    definitions: &Definitions<'_>,
    each: Each<'a>,
) -> Result<Option<u32>, Memory>
    ensures { IfOk result (λ place. place ≡ keys.first_bad definitions.now [] each.entry) }
{
    let mut each = each;
    let mut known = Known::new(alloc);
    while let Some((place, op, args)) = each.next() {
        if !is_well_made(definitions, &mut known, op, args)? {
            return Ok(Some(place));
        }
    }
    Ok(None)
}

/// Whether an instruction, if it declares a type, makes it as it may be.
fn is_well_made<'a>(
    definitions: &Definitions<'_>,
    known: &mut Known<'a>,
    op: u16,
    args: &'a [u32],
) -> Result<bool, Memory>
    ensures passed { IfOk result (λ passed. passed ≡ keys.passes definitions.now known.old 0 (record { op = op; args = args.now })) }
    ensures kept { IfOk result (λ passed. known.new ≡ keys.behind known.old 0 (record { op = op; args = args.now })) }
{
    match kind_at(op, args) {
        Kind::Declares(shape) => {
            let first = known.add(op, behind_first(args))?;
            Ok(is_made(definitions, first, shape))
        }
        _ => Ok(true),
    }
}

/// The words behind the first.
fn behind_first(words: &[u32]) -> &[u32]
    ensures { result.now ≡ drop 1 words.now }
{
    if words.is_empty() { words } else { &words[1..] }
}

/// Whether a type may be made so, where `first` says whether it is declared for the first time.
fn is_made(definitions: &Definitions<'_>, first: bool, shape: Shape<'_>) -> bool
    ensures { result ≡ spec.is_made definitions.now first (shape_seen shape.entry) }
{
    match shape {
        Shape::Void | Shape::Bool => first,
        Shape::Int { signedness } => signedness <= 1 && first,
        Shape::Vector { component, count } => {
            is_component(definitions, component) && 2 <= count && count <= 4 && first
        }
        Shape::Array { element, length } => is_value_type(definitions, element)
            && is_length(value_of(definitions, length)),
        Shape::RuntimeArray { element } => is_value_type(definitions, element),
        Shape::Struct { members, .. } => are_members(definitions, members),
        Shape::Pointer { pointee, .. } => is_value_type(definitions, pointee) && first,
        Shape::Function {
            returned,
            parameters,
        } => { is_returned(definitions, returned) && are_taken(definitions, parameters) && first }
        Shape::NoType => true,
    }
}

/// What a vector may have.
fn is_component(definitions: &Definitions<'_>, id: u32) -> bool
    ensures { result ≡ spec.is_component definitions.now id }
{
    is_int(definitions, id) || is_bool(definitions, id)
}

/// Whether there is a length, and it is at least 1.
fn is_length(length: Option<u32>) -> bool
    ensures { result ≡ spec.is_length length }
{
    match length {
        Some(length) => 1 <= length,
        None => false,
    }
}

/// What a struct may have.
fn are_members(definitions: &Definitions<'_>, members: &[u32]) -> bool
    ensures { result ≡ list_all (spec.is_member definitions.now) members.now }
{
    members.iter().all(|id| is_member(definitions, *id))
}

fn is_member(definitions: &Definitions<'_>, id: u32) -> bool
    ensures { result ≡ spec.is_member definitions.now id }
{
    is_value_type(definitions, id) || is_runtime(definitions, id)
}

/// What a function may give.
fn is_returned(definitions: &Definitions<'_>, id: u32) -> bool
    ensures { result ≡ spec.is_returned definitions.now id }
{
    is_void(definitions, id) || is_value_type(definitions, id)
}

/// What a function may take.
fn are_taken(definitions: &Definitions<'_>, parameters: &[u32]) -> bool
    ensures { result ≡ list_all (spec.is_taken definitions.now) parameters.now }
{
    parameters.iter().all(|id| is_taken(definitions, *id))
}

fn is_taken(definitions: &Definitions<'_>, id: u32) -> bool
    ensures { result ≡ spec.is_taken definitions.now id }
{
    is_value_type(definitions, id) || is_local_pointer(definitions, id)
}
