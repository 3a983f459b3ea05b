//! Indexes, assignments and steps, around the parts that they have.

ghost use Rattle.std.specs.Prelude.{◌≡◌, if◌then◌else◌};
ghost use Rattle.gsl_tree.specs.Operations as operations;
ghost use Rattle.gsl_lower_holders.specs.Flow.{Does, flow_of};
ghost use Rattle.gsl_lower_expr.specs.Parts as spec;

use crate::access::{operand, shape_or};
use crate::lowerer::Lowerer;
use gsl_lower_holders::{FlowPlace, fetch, fetch_reached, hold, hold_reached};
use gsl_lower_places::{Part, Reached};
use gsl_lower_traits::{Traits, spills};
use gsl_lower_values::{binary, stepped};
use gsl_spv::{BuildRefusal, Builder};
use gsl_tree::StepOp;
use gsl_types::Ty;
use gsl_values::BinaryOp;

/// What waits for the right side of `op=`: the old value, and where the new one goes.
#[derive(Debug, Drop)]
pub(crate) struct Kept {
    pub(crate) old: u32,
    pub(crate) to: Reached,
}

/// Whether the value of a step is the one before it.
fn is_postfix(which: StepOp) -> bool
    ensures { result ≡ operations.is_postfix which }
{
    match which {
        StepOp::PreUp | StepOp::PreDown => false,
        StepOp::PostUp | StepOp::PostDown => true,
    }
}

impl<'a> Lowerer<'a> {
    /// What is indexed, before the index.
    pub(crate) fn before_index(
        &self,
        b: &mut Builder,
        p: &mut FlowPlace,
        ty: &Ty,
        a: Traits,
        i: Traits,
        r: Reached,
    ) -> Result<Reached, BuildRefusal>
        ensures { Does result b.new p.new (spec.before_index self.now.shapes.now (record { ty = ty.now; traits = a }) i r (flow_of b.old p.old)) }
    {
        let x = self.spilled(b, p, spills(ty, a, i), ty, r)?;
        self.probe(b, i.calls, ty, &x)?;
        hold_reached(self.alloc, b, p, i.splits, x)
    }

    /// The part at an index.
    pub(crate) fn after_index(
        &self,
        b: &mut Builder,
        p: &FlowPlace,
        ty: &Ty,
        i: Traits,
        kept: Reached,
        part: Part,
    ) -> Result<Reached, BuildRefusal>
        ensures { Does result b.new p.now (spec.after_index ty.now i kept part (flow_of b.old p.now)) }
    {
        let to = fetch_reached(self.alloc, b, p, i.splits, kept)?;
        self.step_into(b, ty, part, to)
    }

    /// What is assigned to, before the right side.
    pub(crate) fn before_assign(
        &self,
        b: &mut Builder,
        p: &mut FlowPlace,
        ty: &Ty,
        right: Traits,
        r: Reached,
    ) -> Result<Reached, BuildRefusal>
        ensures { Does result b.new p.new (spec.before_assign self.now.shapes.now ty.now right r (flow_of b.old p.old)) }
    {
        self.probe(b, right.calls, ty, &r)?;
        hold_reached(self.alloc, b, p, right.splits, r)
    }

    /// An assignment, behind the right side.
    pub(crate) fn after_assign(
        &self,
        b: &mut Builder,
        p: &FlowPlace,
        ty: &Ty,
        right: Traits,
        kept: Reached,
        y: u32,
    ) -> Result<u32, BuildRefusal>
        ensures { Does result b.new p.now (spec.after_assign self.now.shapes.now ty.now right kept y (flow_of b.old p.now)) }
    {
        let to = fetch_reached(self.alloc, b, p, right.splits, kept)?;
        self.stores(b, p, ty, &to, y)?;
        Ok(y)
    }

    /// `op=`, before the right side: it reads the old value.
    #[tactic(auto, unfolding(crate::specs::Parts::before_update))]
    pub(crate) fn before_update(
        &self,
        b: &mut Builder,
        p: &mut FlowPlace,
        ty: &Ty,
        right: Traits,
        r: Reached,
    ) -> Result<Kept, BuildRefusal>
        ensures { Does result b.new p.new (spec.before_update self.now.shapes.now ty.now right r (flow_of b.old p.old)) }
    {
        let to = self.pointed_if(b, !right.splits, shape_or(ty), r)?;
        let old = self.reads(b, p, ty, &to)?;
        let old = hold(b, p, right.splits, old)?;
        let to = hold_reached(self.alloc, b, p, right.splits, to)?;
        Ok(Kept { old, to })
    }

    /// `op=`, behind the right side.
    #[tactic(auto, unfolding(crate::specs::Parts::after_update))]
    pub(crate) fn after_update(
        &self,
        b: &mut Builder,
        p: &FlowPlace,
        which: BinaryOp,
        ty: &Ty,
        right_ty: &Ty,
        right: Traits,
        kept: Kept,
        y: u32,
    ) -> Result<u32, BuildRefusal>
        ensures { Does result b.new p.now (spec.after_update self.now.shapes.now which ty.now right_ty.now right kept y (flow_of b.old p.now)) }
    {
        let Kept { old, to } = kept;
        let x = fetch(self.alloc, b, p, right.splits, ty, old)?;
        let to = fetch_reached(self.alloc, b, p, right.splits, to)?;
        let new = binary(self.alloc, b, which, operand(ty, x), operand(right_ty, y))?;
        self.stores(b, p, ty, &to, new)?;
        Ok(new)
    }

    /// `++` and `--`.
    #[tactic(auto, unfolding(crate::specs::Parts::stepped_at))]
    pub(crate) fn stepped_at(
        &self,
        b: &mut Builder,
        p: &mut FlowPlace,
        which: StepOp,
        ty: &Ty,
        r: Reached,
    ) -> Result<u32, BuildRefusal>
        ensures { Does result b.new p.new (spec.stepped_at self.now.shapes.now which ty.now r (flow_of b.old p.old)) }
    {
        let to = self.pointed_if(b, true, shape_or(ty), r)?;
        let old = self.reads(b, p, ty, &to)?;
        let new = stepped(self.alloc, b, which, operand(ty, old))?;
        self.stores(b, p, ty, &to, new)?;
        if is_postfix(which) { Ok(old) } else { Ok(new) }
    }
}
