//! Pointers to parts of variables.

ghost use Rattle.std.specs.Prelude.{◌≡◌, ◌∷◌, ◌<◌, [], IfOk, Some, length, slice_get};
ghost use Rattle.gsl_lower_values.specs.Building.{Does};
ghost use Rattle.gsl_lower_places.specs.Reading as spec;

use crate::reached::Part;
use gsl_base::{List, Memory};
use gsl_instr::op;
use gsl_lower_values::{give, scalar_constant};
use gsl_spv::{BuildRefusal, Builder, PlainType};
use gsl_types::Scalar;
use gsl_words::Args;
use std::alloc::Global;

/// The id of an index: a constant, or the id that is there.
#[tactic(auto, unfolding(crate::specs::Reading::index))]
pub fn index(b: &mut Builder, part: Part) -> Result<u32, BuildRefusal>
    ensures { Does result b.new (spec.index part b.old) }
{
    match part {
        Part::Fixed(number) => scalar_constant(b, Scalar::Int, number),
        Part::By(_, id) => Ok(id),
    }
}

/// A part by its place.
fn part_at(parts: &[Part], k: usize) -> &Part
    requires { k < length parts.now }
    ensures { slice_get parts.now k ≡ Some result.now }
{
    &parts[k]
}

fn indexes(alloc: Global, b: &mut Builder, parts: &[Part]) -> Result<Args, BuildRefusal>
    ensures { Does result b.new (spec.indexes parts.now b.old) }
{
    let mut ids = List::new(alloc);
    for k in 0..parts.len() {
        ids.push(index(b, *part_at(parts, k))?)?;
    }
    Ok(ids)
}

/// An id in front of others.
fn behind(alloc: Global, id: u32, ids: &[u32]) -> Result<Args, Memory>
    ensures { IfOk result (λ l. l ≡ id ∷ ids.now) }
{
    let mut all = List::from_slice(alloc, &[id])?;
    all.extend_from_slice(ids)?;
    Ok(all)
}

/// A pointer to what parts lead to in a variable of a class, by the id of the type of what is there. Where there are no parts it is the
/// variable's own.
#[tactic(auto, unfolding(crate::specs::Reading::pointer))]
pub fn pointer(
    alloc: Global,
    b: &mut Builder,
    id: u32,
    class: u32,
    pointee: u32,
    parts: &[Part],
) -> Result<u32, BuildRefusal>
    ensures { Does result b.new (spec.pointer id class pointee parts.now b.old) }
{
    if parts.is_empty() {
        return Ok(id);
    }
    let ids = indexes(alloc, b, parts)?;
    let ty = b.plain_type(PlainType::Pointer(class, pointee))?;
    let args = behind(alloc, id, ids.as_slice())?;
    give(alloc, b, op::ACCESS_CHAIN, args.as_slice(), ty)
}
