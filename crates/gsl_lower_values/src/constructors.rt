//! Swizzles and constructors.

ghost use Rattle.std.specs.Prelude.{◌≡◌, ◌-◌, [], ◌∷◌, IfOk, length};
ghost use Rattle.std.specs.List.{range_with_len};
ghost use Rattle.gsl_lower_values.specs.Building.{Does};
ghost use Rattle.gsl_lower_values.specs.Constructors as spec;

use crate::giving::give;
use crate::operand::{Operand, Shape, Share};
use crate::operators::converted;
use crate::types::{copies, type_of};
use gsl_base::{List, Memory};
use gsl_instr::op;
use gsl_spv::{BuildRefusal, Builder};
use gsl_types::Scalar;
use gsl_words::Args;
use std::alloc::Global;

/// The component at a position.
fn component(alloc: Global, b: &mut Builder, a: Operand, position: u32) -> Result<u32, BuildRefusal>
    ensures { Does result b.new (spec.component a position b.old) }
{
    let ty = type_of(b, (a.shape.0, 1))?;
    give(alloc, b, op::COMPOSITE_EXTRACT, &[a.id, position], ty)
}

/// An id twice, and then positions.
fn shuffling(alloc: Global, first: u32, second: u32, positions: &[u32]) -> Result<Args, Memory>
    ensures { IfOk result (λ args. args ≡ first ∷ second ∷ positions.now) }
{
    let mut args = List::from_slice(alloc, &[first, second])?;
    args.extend_from_slice(positions)?;
    Ok(args)
}

/// The components at several positions, of a vector or of a scalar.
fn components(
    alloc: Global,
    b: &mut Builder,
    a: Operand,
    positions: &[u32],
) -> Result<u32, BuildRefusal>
    ensures { Does result b.new (spec.components a positions.now b.old) }
{
    let count = count_of(positions)?;
    let ty = type_of(b, (a.shape.0, count))?;
    if a.shape.1 == 1 {
        let parts = copies(alloc, a.id, count)?;
        return give(alloc, b, op::COMPOSITE_CONSTRUCT, parts.as_slice(), ty);
    }
    let args = shuffling(alloc, a.id, a.id, positions)?;
    give(alloc, b, op::VECTOR_SHUFFLE, args.as_slice(), ty)
}

/// What is picked of a scalar or vector at one to four positions.
#[tactic(auto, unfolding(crate::specs::Constructors::picked))]
pub fn picked(
    alloc: Global,
    b: &mut Builder,
    a: Operand,
    positions: &[u32],
) -> Result<u32, BuildRefusal>
    ensures { Does result b.new (spec.picked a positions.now b.old) }
{
    match positions {
        [position] => {
            if a.shape.1 == 1 {
                Ok(a.id)
            } else {
                component(alloc, b, a, *position)
            }
        }
        _ => components(alloc, b, a, positions),
    }
}

/// Numbers in a row, from zero on.
fn row(alloc: Global, count: u32) -> Result<Args, Memory>
    ensures { IfOk result (λ l. l ≡ range_with_len 0 count) }
{
    let mut numbers = List::new(alloc);
    for k in 0..count {
        numbers.push(k)?;
    }
    Ok(numbers)
}

/// How many positions there are. No list has 2^32 of them.
fn count_of(positions: &[u32]) -> Result<u32, Memory>
    ensures { IfOk result (λ n. n ≡ length positions.now) }
{
    if positions.len() > u32::MAX as usize {
        return Err(Memory);
    }
    Ok(positions.len() as u32)
}

/// Where a position stands among some.
fn place_among(position: u32, positions: &[u32]) -> Option<usize>
    ensures { result ≡ spec.place_among position positions.now 0 }
{
    for k in 0..positions.len() {
        if positions[k] == position {
            return Some(k);
        }
    }
    None
}

/// The component that stands at a position when others are put at some positions: a new one, which are counted behind the old
/// ones, or the old one.
fn source(count: u32, position: u32, place: Option<usize>) -> Result<u32, Memory>
    ensures { IfOk result (λ n. n ≡ spec.source_by count position place) }
{
    let Some(place) = place else {
        return Ok(position);
    };
    if place > u32::MAX as usize - count as usize {
        return Err(Memory);
    }
    Ok(count + place as u32)
}

fn sources(alloc: Global, count: u32, positions: &[u32]) -> Result<Args, Memory>
    ensures { IfOk result (λ l. l ≡ spec.sources count positions.now) }
{
    let mut all = List::new(alloc);
    for position in 0..count {
        all.push(source(count, position, place_among(position, positions))?)?;
    }
    Ok(all)
}

/// A position below a count, and from there on the first.
fn own_or_first(few: u32, position: u32) -> u32
    ensures { result ≡ spec.own_or_first few position }
{
    if few <= position { 0 } else { position }
}

fn widened(alloc: Global, count: u32, few: u32) -> Result<Args, Memory>
    ensures { IfOk result (λ l. l ≡ spec.widened count few) }
{
    let mut all = List::new(alloc);
    for position in 0..count {
        all.push(own_or_first(few, position))?;
    }
    Ok(all)
}

/// A vector of fewer components as one of a count, its own in front.
#[tactic(auto, unfolding(crate::specs::Constructors::wide))]
fn wide(alloc: Global, b: &mut Builder, count: u32, a: Operand) -> Result<u32, BuildRefusal>
    ensures { Does result b.new (spec.wide count a b.old) }
{
    if a.shape.1 == count {
        return Ok(a.id);
    }
    let ty = type_of(b, (a.shape.0, count))?;
    let positions = widened(alloc, count, a.shape.1)?;
    let args = shuffling(alloc, a.id, a.id, positions.as_slice())?;
    give(alloc, b, op::VECTOR_SHUFFLE, args.as_slice(), ty)
}

/// A vector with the components of another, by its id, at as many positions.
#[tactic(auto, unfolding(crate::specs::Constructors::replaced))]
pub fn replaced(
    alloc: Global,
    b: &mut Builder,
    a: Operand,
    positions: &[u32],
    new: u32,
) -> Result<u32, BuildRefusal>
    ensures { Does result b.new (spec.replaced a positions.now new b.old) }
{
    let part = Operand {
        shape: (a.shape.0, count_of(positions)?),
        id: new,
    };
    let id = wide(alloc, b, a.shape.1, part)?;
    let ty = type_of(b, a.shape)?;
    let all = sources(alloc, a.shape.1, positions)?;
    let args = shuffling(alloc, a.id, id, all.as_slice())?;
    give(alloc, b, op::VECTOR_SHUFFLE, args.as_slice(), ty)
}

/// The first component.
#[tactic(auto, unfolding(crate::specs::Constructors::first_of))]
fn first_of(alloc: Global, b: &mut Builder, a: Operand) -> Result<Operand, BuildRefusal>
    ensures { Does result b.new (spec.first_of a b.old) }
{
    if a.shape.1 == 1 {
        return Ok(a);
    }
    let id = component(alloc, b, a, 0)?;
    Ok(Operand {
        shape: (a.shape.0, 1),
        id,
    })
}

/// So many components, where there are more.
#[tactic(auto, unfolding(crate::specs::Constructors::cut))]
fn cut(alloc: Global, b: &mut Builder, count: u32, a: Operand) -> Result<Operand, BuildRefusal>
    ensures { Does result b.new (spec.cut count a b.old) }
{
    if a.shape.1 <= count {
        return Ok(a);
    }
    let positions = row(alloc, count)?;
    let id = picked(alloc, b, a, positions.as_slice())?;
    Ok(Operand {
        shape: (a.shape.0, count),
        id,
    })
}

/// Arguments in a row that supply a count of components, each with as many as are still wanted.
fn shares(alloc: Global, count: u32, args: &[Operand]) -> Result<List<Share>, Memory>
    ensures { IfOk result (λ l. l ≡ spec.shares count args.now) }
{
    let mut wanted = count;
    let mut all = List::new(alloc);
    for k in 0..args.len() {
        if wanted == 0 {
            return Ok(all);
        }
        all.push(Share {
            wanted,
            of: args[k],
        })?;
        wanted = wanted.saturating_sub(args[k].shape.1);
    }
    Ok(all)
}

/// Components of an argument, converted.
#[tactic(auto, unfolding(crate::specs::Constructors::share))]
fn share(alloc: Global, b: &mut Builder, s: Scalar, a: Share) -> Result<u32, BuildRefusal>
    ensures { Does result b.new (spec.share s a b.old) }
{
    let x = cut(alloc, b, a.wanted, a.of)?;
    converted(alloc, b, s, x)
}

/// What stands for so many components, each converted, from arguments in a row.
fn parts(
    alloc: Global,
    b: &mut Builder,
    s: Scalar,
    count: u32,
    args: &[Operand],
) -> Result<Args, BuildRefusal>
    ensures { Does result b.new (spec.parts s count args.now b.old) }
{
    let all = shares(alloc, count, args)?;
    let mut ids = List::new(alloc);
    for k in 0..all.len() {
        ids.push(share(alloc, b, s, all[k])?)?;
    }
    Ok(ids)
}

fn construct(alloc: Global, b: &mut Builder, shape: Shape, ids: &[u32]) -> Result<u32, BuildRefusal>
    ensures { Does result b.new (spec.construct shape ids.now b.old) }
{
    let ty = type_of(b, shape)?;
    give(alloc, b, op::COMPOSITE_CONSTRUCT, ids, ty)
}

/// One part alone is the whole.
fn put_together(
    alloc: Global,
    b: &mut Builder,
    shape: Shape,
    ids: &[u32],
) -> Result<u32, BuildRefusal>
    ensures { Does result b.new (spec.put_together shape ids.now b.old) }
{
    match ids {
        [id] => Ok(*id),
        _ => construct(alloc, b, shape, ids),
    }
}

/// One scalar alone fills all components.
fn filled_with(
    alloc: Global,
    b: &mut Builder,
    shape: Shape,
    a: Operand,
) -> Result<u32, BuildRefusal>
    ensures { Does result b.new (spec.filled_with shape a b.old) }
{
    let part = converted(alloc, b, shape.0, a)?;
    let ids = copies(alloc, part, shape.1)?;
    construct(alloc, b, shape, ids.as_slice())
}

fn in_row(
    alloc: Global,
    b: &mut Builder,
    shape: Shape,
    args: &[Operand],
) -> Result<u32, BuildRefusal>
    ensures { Does result b.new (spec.in_row shape args.now b.old) }
{
    let ids = parts(alloc, b, shape.0, shape.1, args)?;
    put_together(alloc, b, shape, ids.as_slice())
}

fn vector(
    alloc: Global,
    b: &mut Builder,
    shape: Shape,
    args: &[Operand],
) -> Result<u32, BuildRefusal>
    ensures { Does result b.new (spec.vector shape args.now b.old) }
{
    match args {
        [a] => {
            if a.shape.1 == 1 {
                filled_with(alloc, b, shape, *a)
            } else {
                in_row(alloc, b, shape, args)
            }
        }
        _ => in_row(alloc, b, shape, args),
    }
}

fn scalar(alloc: Global, b: &mut Builder, s: Scalar, args: &[Operand]) -> Result<u32, BuildRefusal>
    ensures { Does result b.new (spec.scalar s args.now b.old) }
{
    if args.is_empty() {
        return Ok(0);
    }
    let a = first_of(alloc, b, args[0])?;
    converted(alloc, b, s, a)
}

/// What a constructor of a scalar or vector makes of its arguments.
#[tactic(auto, unfolding(crate::specs::Constructors::built))]
pub fn built(
    alloc: Global,
    b: &mut Builder,
    shape: Shape,
    args: &[Operand],
) -> Result<u32, BuildRefusal>
    ensures { Does result b.new (spec.built shape args.now b.old) }
{
    if shape.1 == 1 {
        scalar(alloc, b, shape.0, args)
    } else {
        vector(alloc, b, shape, args)
    }
}
