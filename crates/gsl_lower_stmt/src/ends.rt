//! Ends of blocks, and the blocks of an `if`.

ghost use Rattle.gsl_lower_holders.specs.Flow.{Does, flow_of, fresh};
ghost use Rattle.gsl_lower_stmt.specs.Parts as spec;

use crate::labels::Fork;
use gsl_instr::op;
use gsl_lower_holders::{FlowPlace, opening};
use gsl_spv::{BuildRefusal, Builder};

/// A new id.
pub(crate) fn fresh_id(b: &mut Builder, p: &FlowPlace) -> Result<u32, BuildRefusal>
    ensures { Does result b.new p.now (fresh (flow_of b.old p.now)) }
{
    b.id()
}

/// A block goes on at a label.
pub(crate) fn branch(b: &mut Builder, p: &FlowPlace, label: u32) -> Result<(), BuildRefusal>
    ensures { Does result b.new p.now (spec.branch label (flow_of b.old p.now)) }
{
    b.put(op::BRANCH, &[label])
}

/// A block goes on at a label, unless it was left.
#[tactic(auto, unfolding(crate::specs::Parts::seal))]
pub(crate) fn seal(
    b: &mut Builder,
    p: &FlowPlace,
    left: bool,
    label: u32,
) -> Result<(), BuildRefusal>
    ensures { Does result b.new p.now (spec.seal left label (flow_of b.old p.now)) }
{
    if left {
        return Ok(());
    }
    branch(b, p, label)
}

/// A jump.
#[tactic(auto, unfolding(crate::specs::Parts::leave_by))]
pub(crate) fn leave_by(
    b: &mut Builder,
    p: &FlowPlace,
    exit: Option<u32>,
) -> Result<(), BuildRefusal>
    ensures { Does result b.new p.now (spec.leave_by exit (flow_of b.old p.now)) }
{
    match exit {
        Some(label) => branch(b, p, label),
        None => Err(BuildRefusal::Memory),
    }
}

/// A block ends in a choice between two, of which the first begins.
pub(crate) fn choosing(
    b: &mut Builder,
    p: &mut FlowPlace,
    x: u32,
    first: u32,
    other: u32,
    end: u32,
) -> Result<(), BuildRefusal>
    ensures { Does result b.new p.new (spec.choosing x first other end (flow_of b.old p.old)) }
{
    b.put(op::SELECTION_MERGE, &[end, 0])?;
    b.put(op::BRANCH_CONDITIONAL, &[x, first, other])?;
    opening(b, p, first)
}

/// The blocks of an `if` begin.
#[tactic(auto, unfolding(crate::specs::Parts::begin_if))]
pub(crate) fn begin_if(b: &mut Builder, p: &mut FlowPlace, x: u32) -> Result<Fork, BuildRefusal>
    ensures { Does result b.new p.new (spec.begin_if x (flow_of b.old p.old)) }
{
    let first = b.id()?;
    let other = b.id()?;
    let end = b.id()?;
    choosing(b, p, x, first, other, end)?;
    Ok(Fork { other, end })
}

/// The second block of an `if` begins.
#[tactic(auto, unfolding(crate::specs::Parts::begin_else))]
pub(crate) fn begin_else(
    b: &mut Builder,
    p: &mut FlowPlace,
    f: Fork,
    left: bool,
) -> Result<(), BuildRefusal>
    ensures { Does result b.new p.new (spec.begin_else f left (flow_of b.old p.old)) }
{
    seal(b, p, left, f.end)?;
    opening(b, p, f.other)
}

/// Both ways of an `if` meet.
#[tactic(auto, unfolding(crate::specs::Parts::end_if))]
pub(crate) fn end_if(
    b: &mut Builder,
    p: &mut FlowPlace,
    f: Fork,
    left: bool,
) -> Result<(), BuildRefusal>
    ensures { Does result b.new p.new (spec.end_if f left (flow_of b.old p.old)) }
{
    seal(b, p, left, f.end)?;
    opening(b, p, f.end)
}
