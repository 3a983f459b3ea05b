//! What is asked for at expressions: their parts from left to right.

ghost use Rattle.std.specs.Prelude.{◌≡◌, ◌<◌, Some, length, slice_get};
ghost use Rattle.gsl_lower_needs.specs.Asking.{Does};
ghost use Rattle.gsl_lower_needs.specs.Coming as coming;

use crate::lead::{Found, Lead};
use crate::leads::{
    built_of, hold, hold_lead, in_holder, loose, own, part_at, passed_both, passed_out, reads,
    spilled, swizzled, updated_at,
};
use crate::need::{Need, Needs};
use gsl_base::Memory;
use gsl_lower_expr::{count_splits, left_behind, shape_or};
use gsl_lower_traits::{is_selected, is_short, spills, traits_of};
use gsl_tree::{Expr, ExprKind, Exprs, Params, Prototypes};
use gsl_types::{Direction, Scalar, Ty};
use std::alloc::Global;

/// What expressions stand in: the heads of functions of their program.
#[derive(Clone, Copy)]
pub struct Asker<'a> {
    pub alloc: Global,
    pub prototypes: &'a Prototypes,
}

impl<'a> Asker<'a> {
    /// At the value of an expression.
    #[cycle(expressions)]
    #[tactic(auto, using(crate::proofs::Steps::asks_step))]
    pub fn value(&self, e: &Expr, needs: &mut Needs) -> Result<(), Memory>
        ensures { Does result needs.new (coming.evaluates self.now.prototypes.now e.now needs.old) }
    {
        let found = self.found(&e.kind, &e.ty, needs)?;
        match found {
            Found::Place(lead) => reads(self.alloc, needs, &e.ty, &lead),
            Found::Value => Ok(()),
        }
    }

    /// At what an expression leads to.
    #[cycle(expressions)]
    #[tactic(auto, using(crate::proofs::Steps::asks_step))]
    fn reach(&self, e: &Expr, needs: &mut Needs) -> Result<Lead, Memory>
        ensures { Does result needs.new (coming.reaches self.now.prototypes.now e.now needs.old) }
    {
        let found = self.found(&e.kind, &e.ty, needs)?;
        match found {
            Found::Place(lead) => Ok(lead),
            Found::Value => {
                let lead = loose(self.alloc, &e.ty)?;
                Ok(lead)
            }
        }
    }

    /// At a name, or at another form.
    #[cycle(expressions)]
    #[tactic(auto, using(crate::proofs::Steps::asks_step))]
    fn found(&self, kind: &ExprKind, ty: &Ty, needs: &mut Needs) -> Result<Found, Memory>
        ensures { Does result needs.new (coming.finds self.now.prototypes.now kind.now ty.now needs.old) }
    {
        match kind {
            ExprKind::Const(_) | ExprKind::Length(_) => Ok(Found::Value),
            ExprKind::Local(_)
            | ExprKind::Global(_)
            | ExprKind::Param(_)
            | ExprKind::Interface(_) => Ok(Found::Place(own(self.alloc, false))),
            ExprKind::BlockMember(_, _) => Ok(Found::Place(own(self.alloc, true))),
            ExprKind::Stage(var) => {
                needs.push(Need::Stage(*var))?;
                Ok(Found::Value)
            }
            other => self.path(other, ty, needs),
        }
    }

    /// At a part of what an expression leads to, or at another form.
    #[cycle(expressions)]
    #[tactic(auto, using(crate::proofs::Steps::asks_step))]
    fn path(&self, kind: &ExprKind, ty: &Ty, needs: &mut Needs) -> Result<Found, Memory>
        ensures { Does result needs.new (coming.finds self.now.prototypes.now kind.now ty.now needs.old) }
    {
        match kind {
            ExprKind::Member(a, _) => {
                let lead = self.reach(a.get(), needs)?;
                Ok(Found::Place(lead))
            }
            ExprKind::Index(a, i) => {
                let a = a.get();
                let i = i.get();
                let base = traits_of(a)?;
                let index = traits_of(i)?;
                let lead = self.reach(a, needs)?;
                let lead = spilled(self.alloc, needs, spills(&a.ty, base, index), &a.ty, lead)?;
                hold_lead(self.alloc, needs, index.splits, &lead)?;
                let by = self.index_by(i, index.literal, needs)?;
                let lead = part_at(&a.ty, by, lead)?;
                Ok(Found::Place(lead))
            }
            ExprKind::Swizzle(a, _) => {
                let lead = self.reach(a.get(), needs)?;
                Ok(Found::Place(swizzled(lead)))
            }
            other => self.operation(other, ty, needs),
        }
    }

    /// At an index: a number that is known, or what is computed.
    #[cycle(expressions)]
    fn index_by(
        &self,
        i: &Expr,
        literal: Option<u32>,
        needs: &mut Needs,
    ) -> Result<Option<Scalar>, Memory>
        ensures { Does result needs.new (coming.index_of self.now.prototypes.now i.now literal needs.old) }
    {
        match literal {
            Some(_) => Ok(None),
            None => {
                self.value(i, needs)?;
                Ok(Some(shape_or(&i.ty).0))
            }
        }
    }

    /// At an operator on operands, or at another form.
    #[cycle(expressions)]
    #[tactic(auto, using(crate::proofs::Steps::asks_step))]
    fn operation(&self, kind: &ExprKind, ty: &Ty, needs: &mut Needs) -> Result<Found, Memory>
        ensures { Does result needs.new (coming.finds self.now.prototypes.now kind.now ty.now needs.old) }
    {
        match kind {
            ExprKind::Unary(_, a) | ExprKind::Convert(a) => {
                self.value(a.get(), needs)?;
                Ok(Found::Value)
            }
            ExprKind::Binary(_, left, right) => {
                let left = left.get();
                let right = right.get();
                let t = traits_of(right)?;
                self.value(left, needs)?;
                hold(self.alloc, needs, t.splits, &left.ty)?;
                self.value(right, needs)?;
                Ok(Found::Value)
            }
            ExprKind::Logic(op, left, right) => {
                let left = left.get();
                let right = right.get();
                let t = traits_of(right)?;
                self.value(left, needs)?;
                if is_short(*op, t) {
                    in_holder(self.alloc, needs, &Ty::One(Scalar::Bool))?;
                } else {
                    hold(self.alloc, needs, t.splits, &left.ty)?;
                }
                self.value(right, needs)?;
                Ok(Found::Value)
            }
            other => self.choice(other, ty, needs),
        }
    }

    /// At `?:`, or at another form.
    #[cycle(expressions)]
    #[tactic(auto, using(crate::proofs::Steps::asks_step))]
    fn choice(&self, kind: &ExprKind, ty: &Ty, needs: &mut Needs) -> Result<Found, Memory>
        ensures { Does result needs.new (coming.finds self.now.prototypes.now kind.now ty.now needs.old) }
    {
        match kind {
            ExprKind::Choose(test, yes, no) => {
                let yes = yes.get();
                let no = no.get();
                let first = traits_of(yes)?;
                let second = traits_of(no)?;
                self.value(test.get(), needs)?;
                if !is_selected(ty, first, second) {
                    in_holder(self.alloc, needs, ty)?;
                }
                self.value(yes, needs)?;
                self.value(no, needs)?;
                Ok(Found::Value)
            }
            other => self.update(other, ty, needs),
        }
    }

    /// At an assignment or a step, or at another form.
    #[cycle(expressions)]
    #[tactic(auto, using(crate::proofs::Steps::asks_step))]
    fn update(&self, kind: &ExprKind, ty: &Ty, needs: &mut Needs) -> Result<Found, Memory>
        ensures { Does result needs.new (coming.finds self.now.prototypes.now kind.now ty.now needs.old) }
    {
        match kind {
            ExprKind::Assign(left, right) => {
                let right = right.get();
                let t = traits_of(right)?;
                let lead = self.reach(left.get(), needs)?;
                hold_lead(self.alloc, needs, t.splits, &lead)?;
                self.value(right, needs)?;
                Ok(Found::Value)
            }
            ExprKind::Update(_, left, right) => {
                let left = left.get();
                let right = right.get();
                let t = traits_of(right)?;
                let lead = self.reach(left, needs)?;
                updated_at(self.alloc, needs, &left.ty, t, &lead)?;
                self.value(right, needs)?;
                Ok(Found::Value)
            }
            ExprKind::Step(_, a) => {
                let a = a.get();
                let lead = self.reach(a, needs)?;
                reads(self.alloc, needs, &a.ty, &lead)?;
                Ok(Found::Value)
            }
            other => self.row(other, ty, needs),
        }
    }

    /// At a form with a row of parts.
    #[cycle(expressions)]
    #[tactic(auto, using(crate::proofs::Steps::asks_step))]
    fn row(&self, kind: &ExprKind, ty: &Ty, needs: &mut Needs) -> Result<Found, Memory>
        ensures { Does result needs.new (coming.finds self.now.prototypes.now kind.now ty.now needs.old) }
    {
        match kind {
            ExprKind::Built(_, args) => {
                self.keeps(args, needs)?;
                Ok(Found::Value)
            }
            ExprKind::Build(args) => {
                self.keeps(args, needs)?;
                built_of(self.alloc, needs, ty)?;
                Ok(Found::Value)
            }
            ExprKind::Comma(items) => {
                self.sequence(items, needs)?;
                Ok(Found::Value)
            }
            ExprKind::Call(number, args) => {
                if *number as usize >= self.prototypes.len() {
                    return Err(Memory);
                }
                self.passes_all(args, &self.prototypes[*number as usize].params, needs)?;
                Ok(Found::Value)
            }
            _ => Err(Memory),
        }
    }

    /// At expressions from left to right, of which each is kept where it has to wait.
    #[cycle(expressions)]
    fn keeps(&self, es: &Exprs, needs: &mut Needs) -> Result<(), Memory>
        ensures { Does result needs.new (coming.keeps_all self.now.prototypes.now es.now needs.old) }
    {
        let mut left = count_splits(es)?;
        for k in 0..es.len() {
            left = left_behind(left, &es[k])?;
            self.value(&es[k], needs)?;
            hold(self.alloc, needs, left > 0, &es[k].ty)?;
        }
        Ok(())
    }

    /// At expressions in their turn.
    #[cycle(expressions)]
    fn sequence(&self, items: &Exprs, needs: &mut Needs) -> Result<(), Memory>
        ensures { Does result needs.new (coming.sequence_of self.now.prototypes.now items.now needs.old) }
    {
        for k in 0..items.len() {
            self.value(&items[k], needs)?;
        }
        Ok(())
    }

    /// At the arguments of a call from left to right.
    #[cycle(expressions)]
    fn passes_all(&self, es: &Exprs, params: &Params, needs: &mut Needs) -> Result<(), Memory>
        ensures { Does result needs.new (coming.passes_all self.now.prototypes.now es.now params.now needs.old) }
    {
        let mut left = count_splits(es)?;
        for k in 0..es.len() {
            left = left_behind(left, &es[k])?;
            if k >= params.len() {
                return Err(Memory);
            }
            let param = param_at(params, k);
            self.passes(&es[k], left > 0, param.0, &param.1, needs)?;
        }
        Ok(())
    }

    /// At an argument of a call.
    #[cycle(expressions)]
    #[tactic(auto, using(crate::proofs::Steps::asks_step))]
    fn passes(
        &self,
        arg: &Expr,
        waits: bool,
        way: Direction,
        ty: &Ty,
        needs: &mut Needs,
    ) -> Result<(), Memory>
        ensures { Does result needs.new (coming.passes self.now.prototypes.now waits way ty.now arg.now needs.old) }
    {
        match way {
            Direction::In => {
                self.value(arg, needs)?;
                in_holder(self.alloc, needs, ty)
            }
            Direction::Out => {
                let lead = self.reach(arg, needs)?;
                passed_out(self.alloc, needs, waits, ty, &lead)
            }
            Direction::InOut => {
                let lead = self.reach(arg, needs)?;
                passed_both(self.alloc, needs, waits, ty, &arg.ty, &lead)
            }
        }
    }
}

/// A parameter by its place.
fn param_at(params: &Params, k: usize) -> &(Direction, Ty)
    requires { k < length params.now }
    ensures { slice_get params.now k ≡ Some result.now }
{
    &params[k]
}
