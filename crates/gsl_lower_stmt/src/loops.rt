//! The blocks of loops.

ghost use Rattle.std.specs.Prelude.{◌≡◌};
ghost use Rattle.gsl_lower_holders.specs.Flow.{Does, flow_of};
ghost use Rattle.gsl_lower_stmt.specs.Parts as spec;

use crate::ends::{branch, choosing, seal};
use crate::exits::Exits;
use crate::labels::LoopLabels;
use gsl_instr::op;
use gsl_lower_holders::{FlowPlace, opening};
use gsl_spv::{BuildRefusal, Builder};

#[tactic(auto, unfolding(crate::specs::Parts::five_labels))]
fn five_labels(b: &mut Builder, p: &FlowPlace) -> Result<LoopLabels, BuildRefusal>
    ensures { Does result b.new p.now (spec.five_labels (flow_of b.old p.now)) }
{
    let head = b.id()?;
    let first = b.id()?;
    let body = b.id()?;
    let next = b.id()?;
    let end = b.id()?;
    Ok(LoopLabels {
        head,
        first,
        body,
        next,
        end,
    })
}

/// The head of a loop, and its first block.
#[tactic(auto, unfolding(crate::specs::Parts::enter_loop))]
fn enter_loop(b: &mut Builder, p: &mut FlowPlace, l: LoopLabels) -> Result<(), BuildRefusal>
    ensures { Does result b.new p.new (spec.enter_loop l (flow_of b.old p.old)) }
{
    branch(b, p, l.head)?;
    opening(b, p, l.head)?;
    b.put(op::LOOP_MERGE, &[l.end, l.next, 0])?;
    branch(b, p, l.first)?;
    opening(b, p, l.first)
}

/// A loop begins.
#[tactic(auto, unfolding(crate::specs::Parts::begin_loop))]
pub(crate) fn begin_loop(b: &mut Builder, p: &mut FlowPlace) -> Result<LoopLabels, BuildRefusal>
    ensures { Does result b.new p.new (spec.begin_loop (flow_of b.old p.old)) }
{
    let l = five_labels(b, p)?;
    enter_loop(b, p, l)?;
    Ok(l)
}

/// The body is entered where the test holds.
#[tactic(auto, unfolding(crate::specs::Parts::enter_body))]
pub(crate) fn enter_body(
    b: &mut Builder,
    p: &mut FlowPlace,
    l: LoopLabels,
    x: u32,
) -> Result<(), BuildRefusal>
    ensures { Does result b.new p.new (spec.enter_body l x (flow_of b.old p.old)) }
{
    choosing(b, p, x, l.body, l.end, l.body)
}

/// The step of a loop begins.
#[tactic(auto, unfolding(crate::specs::Parts::begin_step))]
pub(crate) fn begin_step(
    b: &mut Builder,
    p: &mut FlowPlace,
    l: LoopLabels,
    left: bool,
) -> Result<(), BuildRefusal>
    ensures { Does result b.new p.new (spec.begin_step l left (flow_of b.old p.old)) }
{
    seal(b, p, left, l.next)?;
    opening(b, p, l.next)
}

/// A loop goes on where the test behind its step holds.
#[tactic(auto, unfolding(crate::specs::Parts::again_if))]
pub(crate) fn again_if(
    b: &mut Builder,
    p: &FlowPlace,
    l: LoopLabels,
    x: u32,
) -> Result<(), BuildRefusal>
    ensures { Does result b.new p.now (spec.again_if l x (flow_of b.old p.now)) }
{
    b.put(op::BRANCH_CONDITIONAL, &[x, l.head, l.end])
}

/// Where jumps lead in the body of a loop.
pub(crate) fn in_loop(l: LoopLabels) -> Exits
    ensures { result ≡ spec.in_loop l }
{
    Exits {
        break_to: Some(l.end),
        continue_to: Some(l.next),
    }
}
