//! Values that wait.

ghost use Rattle.std.specs.Prelude.{◌≡◌, ◌<◌, Some, length, slice_get};
ghost use Rattle.gsl_lower_holders.specs.Flow as flows;
ghost use Rattle.gsl_lower_holders.specs.Flow.{Does, flow_of};
ghost use Rattle.gsl_lower_holders.specs.Waiting as spec;

use crate::flow::{id_in, type_id};
use crate::place::FlowPlace;
use gsl_base::List;
use gsl_instr::op;
use gsl_lower_places::{Base, Part, Parts, Picked, Reached};
use gsl_lower_values::{give, scalar_type};
use gsl_spv::{BuildRefusal, Builder};
use gsl_types::Ty;
use std::alloc::Global;

/// The next holder.
#[tactic(auto, unfolding(crate::specs::Waiting::holder))]
pub fn holder(b: &mut Builder, p: &mut FlowPlace) -> Result<u32, BuildRefusal>
    ensures { Does result b.new p.new (spec.holder (flow_of b.old p.old)) }
{
    let Some(id) = id_in(p.holders.as_slice(), p.used) else {
        return Err(BuildRefusal::Memory);
    };
    if p.used == u32::MAX {
        return Err(BuildRefusal::Memory);
    }
    p.used += 1;
    Ok(id)
}

/// A value is kept in the next holder.
#[tactic(auto, unfolding(crate::specs::Waiting::keep))]
pub fn keep(b: &mut Builder, p: &mut FlowPlace, value: u32) -> Result<u32, BuildRefusal>
    ensures { Does result b.new p.new (spec.keep value (flow_of b.old p.old)) }
{
    let h = holder(b, p)?;
    b.put(op::STORE, &[h, value])?;
    Ok(h)
}

/// What is in a holder, by the id of its type.
pub fn take_back(
    alloc: Global,
    b: &mut Builder,
    p: &FlowPlace,
    h: u32,
    ty: u32,
) -> Result<u32, BuildRefusal>
    ensures { Does result b.new p.now (spec.take_back h ty (flow_of b.old p.now)) }
{
    give(alloc, b, op::LOAD, &[h], ty)
}

/// A value waits where blocks end before it is used.
#[tactic(auto, unfolding(crate::specs::Waiting::hold))]
pub fn hold(
    b: &mut Builder,
    p: &mut FlowPlace,
    waits: bool,
    value: u32,
) -> Result<u32, BuildRefusal>
    ensures { Does result b.new p.new (spec.hold waits value (flow_of b.old p.old)) }
{
    if !waits {
        return Ok(value);
    }
    keep(b, p, value)
}

/// The value again, from what stands for it while it waits.
#[tactic(auto, unfolding(crate::specs::Waiting::fetch))]
pub fn fetch(
    alloc: Global,
    b: &mut Builder,
    p: &FlowPlace,
    waits: bool,
    ty: &Ty,
    kept: u32,
) -> Result<u32, BuildRefusal>
    ensures { Does result b.new p.now (spec.fetch waits ty.now kept (flow_of b.old p.now)) }
{
    if !waits {
        return Ok(kept);
    }
    let id = type_id(b, p, ty)?;
    take_back(alloc, b, p, kept, id)
}

fn keep_part(b: &mut Builder, p: &mut FlowPlace, part: Part) -> Result<Part, BuildRefusal>
    ensures { Does result b.new p.new (spec.keep_part part (flow_of b.old p.old)) }
{
    match part {
        Part::Fixed(number) => Ok(Part::Fixed(number)),
        Part::By(s, id) => {
            let h = keep(b, p, id)?;
            Ok(Part::By(s, h))
        }
    }
}

fn take_part(
    alloc: Global,
    b: &mut Builder,
    p: &FlowPlace,
    part: Part,
) -> Result<Part, BuildRefusal>
    ensures { Does result b.new p.now (spec.take_part part (flow_of b.old p.now)) }
{
    match part {
        Part::Fixed(number) => Ok(Part::Fixed(number)),
        Part::By(s, h) => {
            let ty = scalar_type(b, s)?;
            let id = take_back(alloc, b, p, h, ty)?;
            Ok(Part::By(s, id))
        }
    }
}

/// A part by its place.
fn part_at(parts: &[Part], k: usize) -> &Part
    requires { k < length parts.now }
    ensures { slice_get parts.now k ≡ Some result.now }
{
    &parts[k]
}

fn keep_parts(
    alloc: Global,
    b: &mut Builder,
    p: &mut FlowPlace,
    parts: &[Part],
) -> Result<Parts, BuildRefusal>
    ensures { Does result b.new p.new (flows.each spec.keep_part parts.now (flow_of b.old p.old)) }
{
    let mut all = List::new(alloc);
    for k in 0..parts.len() {
        all.push(keep_part(b, p, *part_at(parts, k))?)?;
    }
    Ok(all)
}

fn take_parts(
    alloc: Global,
    b: &mut Builder,
    p: &FlowPlace,
    parts: &[Part],
) -> Result<Parts, BuildRefusal>
    ensures { Does result b.new p.now (flows.each spec.take_part parts.now (flow_of b.old p.now)) }
{
    let mut all = List::new(alloc);
    for k in 0..parts.len() {
        all.push(take_part(alloc, b, p, *part_at(parts, k))?)?;
    }
    Ok(all)
}

fn keep_base(b: &mut Builder, p: &mut FlowPlace, base: Base) -> Result<Base, BuildRefusal>
    ensures { Does result b.new p.new (spec.keep_base base (flow_of b.old p.old)) }
{
    match base {
        Base::Variable(id, class) => Ok(Base::Variable(id, class)),
        Base::Value(id, ty) => {
            let h = keep(b, p, id)?;
            Ok(Base::Value(h, ty))
        }
    }
}

fn take_base(
    alloc: Global,
    b: &mut Builder,
    p: &FlowPlace,
    base: Base,
) -> Result<Base, BuildRefusal>
    ensures { Does result b.new p.now (spec.take_base base (flow_of b.old p.now)) }
{
    match base {
        Base::Variable(id, class) => Ok(Base::Variable(id, class)),
        Base::Value(h, ty) => {
            let id = take_back(alloc, b, p, h, ty)?;
            Ok(Base::Value(id, ty))
        }
    }
}

fn keep_by(
    b: &mut Builder,
    p: &mut FlowPlace,
    by: Option<Part>,
) -> Result<Option<Part>, BuildRefusal>
    ensures { Does result b.new p.new (spec.picked_by spec.keep_part by (flow_of b.old p.old)) }
{
    match by {
        None => Ok(None),
        Some(part) => {
            let one = keep_part(b, p, part)?;
            Ok(Some(one))
        }
    }
}

fn take_by(
    alloc: Global,
    b: &mut Builder,
    p: &FlowPlace,
    by: Option<Part>,
) -> Result<Option<Part>, BuildRefusal>
    ensures { Does result b.new p.now (spec.picked_by spec.take_part by (flow_of b.old p.now)) }
{
    match by {
        None => Ok(None),
        Some(part) => {
            let one = take_part(alloc, b, p, part)?;
            Ok(Some(one))
        }
    }
}

fn keep_picked(
    b: &mut Builder,
    p: &mut FlowPlace,
    picked: Option<Picked>,
) -> Result<Option<Picked>, BuildRefusal>
    ensures { Does result b.new p.new (spec.in_picked spec.keep_part picked (flow_of b.old p.old)) }
{
    match picked {
        None => Ok(None),
        Some(one) => {
            let by = keep_by(b, p, one.by)?;
            Ok(Some(Picked {
                shape: one.shape,
                by,
                positions: one.positions,
            }))
        }
    }
}

fn take_picked(
    alloc: Global,
    b: &mut Builder,
    p: &FlowPlace,
    picked: Option<Picked>,
) -> Result<Option<Picked>, BuildRefusal>
    ensures { Does result b.new p.now (spec.in_picked spec.take_part picked (flow_of b.old p.now)) }
{
    match picked {
        None => Ok(None),
        Some(one) => {
            let by = take_by(alloc, b, p, one.by)?;
            Ok(Some(Picked {
                shape: one.shape,
                by,
                positions: one.positions,
            }))
        }
    }
}

/// What an expression leads to waits where blocks end before it is used.
#[tactic(auto, unfolding(crate::specs::Waiting::hold_reached))]
pub fn hold_reached(
    alloc: Global,
    b: &mut Builder,
    p: &mut FlowPlace,
    waits: bool,
    r: Reached,
) -> Result<Reached, BuildRefusal>
    ensures { Does result b.new p.new (spec.hold_reached waits r (flow_of b.old p.old)) }
{
    if !waits {
        return Ok(r);
    }
    let Reached { base, path, picked } = r;
    let base = keep_base(b, p, base)?;
    let path = keep_parts(alloc, b, p, path.as_slice())?;
    let picked = keep_picked(b, p, picked)?;
    Ok(Reached { base, path, picked })
}

/// What an expression leads to again, from what stands for it while it waits.
#[tactic(auto, unfolding(crate::specs::Waiting::fetch_reached))]
pub fn fetch_reached(
    alloc: Global,
    b: &mut Builder,
    p: &FlowPlace,
    waits: bool,
    r: Reached,
) -> Result<Reached, BuildRefusal>
    ensures { Does result b.new p.now (spec.fetch_reached waits r (flow_of b.old p.now)) }
{
    if !waits {
        return Ok(r);
    }
    let Reached { base, path, picked } = r;
    let base = take_base(alloc, b, p, base)?;
    let path = take_parts(alloc, b, p, path.as_slice())?;
    let picked = take_picked(alloc, b, p, picked)?;
    Ok(Reached { base, path, picked })
}
