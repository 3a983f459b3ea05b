//! Blocks of two ways that meet again (SPIR-V 1.0, 2.11).

ghost use Rattle.std.specs.Prelude.{◌≡◌, ◌∷◌, [], IfOk};
ghost use Rattle.gsl_lower_holders.specs.Flow.{Does, flow_of};
ghost use Rattle.gsl_lower_holders.specs.Ways as spec;

use crate::flow::{opening, type_id};
use crate::place::FlowPlace;
use crate::waiting::{holder, keep, take_back};
use gsl_instr::op;
use gsl_spv::{BuildRefusal, Builder};
use gsl_tree::LogicOp;
use gsl_types::Ty;
use std::alloc::Global;

/// A choice between two ways: the holder for what they give, the label of the second, and that of the block where they meet.
#[derive(Clone, Copy, Debug)]
pub struct Fork {
    pub holder: u32,
    pub other: u32,
    pub end: u32,
}

/// A block ends in a choice between two, and the first of them begins.
fn choosing(
    b: &mut Builder,
    p: &mut FlowPlace,
    end: u32,
    operands: [u32; 3],
    first: u32,
) -> Result<(), BuildRefusal>
    ensures { Does result b.new p.new (spec.choosing end operands first (flow_of b.old p.old)) }
{
    b.put(op::SELECTION_MERGE, &[end, 0])?;
    b.put(op::BRANCH_CONDITIONAL, &operands)?;
    opening(b, p, first)
}

fn targets(which: LogicOp, x: u32, right: u32, end: u32) -> [u32; 3]
    ensures { result ≡ spec.targets which x right end }
{
    match which {
        LogicOp::Or => [x, end, right],
        _ => [x, right, end],
    }
}

/// The right operand begins in a block of its own, which is entered where the left one does not decide.
#[tactic(auto, unfolding(crate::specs::Ways::begin_short))]
pub fn begin_short(
    b: &mut Builder,
    p: &mut FlowPlace,
    which: LogicOp,
    x: u32,
) -> Result<Fork, BuildRefusal>
    ensures { Does result b.new p.new (spec.begin_short which x (flow_of b.old p.old)) }
{
    let h = keep(b, p, x)?;
    let right = b.id()?;
    let end = b.id()?;
    choosing(b, p, end, targets(which, x, right, end), right)?;
    Ok(Fork {
        holder: h,
        other: right,
        end,
    })
}

/// The first of two values begins in a block of its own.
#[tactic(auto, unfolding(crate::specs::Ways::begin_choice))]
pub fn begin_choice(b: &mut Builder, p: &mut FlowPlace, x: u32) -> Result<Fork, BuildRefusal>
    ensures { Does result b.new p.new (spec.begin_choice x (flow_of b.old p.old)) }
{
    let h = holder(b, p)?;
    let yes = b.id()?;
    let other = b.id()?;
    let end = b.id()?;
    choosing(b, p, end, [x, yes, other], yes)?;
    Ok(Fork {
        holder: h,
        other,
        end,
    })
}

/// A value is left in a holder for the block where both ways meet.
fn leaving(
    b: &mut Builder,
    p: &mut FlowPlace,
    f: Fork,
    v: u32,
    next: u32,
) -> Result<(), BuildRefusal>
    ensures { Does result b.new p.new (spec.leaving f v next (flow_of b.old p.old)) }
{
    b.put(op::STORE, &[f.holder, v])?;
    b.put(op::BRANCH, &[f.end])?;
    opening(b, p, next)
}

/// The first value is there, and the other way begins.
#[tactic(auto, unfolding(crate::specs::Ways::other_way))]
pub fn other_way(b: &mut Builder, p: &mut FlowPlace, f: Fork, v: u32) -> Result<(), BuildRefusal>
    ensures { Does result b.new p.new (spec.other_way f v (flow_of b.old p.old)) }
{
    leaving(b, p, f, v, f.other)
}

/// Both ways meet: the value that either gave.
#[tactic(auto, unfolding(crate::specs::Ways::join))]
pub fn join(
    alloc: Global,
    b: &mut Builder,
    p: &mut FlowPlace,
    ty: &Ty,
    f: Fork,
    v: u32,
) -> Result<u32, BuildRefusal>
    ensures { Does result b.new p.new (spec.join ty.now f v (flow_of b.old p.old)) }
{
    leaving(b, p, f, v, f.end)?;
    let t = type_id(b, p, ty)?;
    take_back(alloc, b, p, f.holder, t)
}
