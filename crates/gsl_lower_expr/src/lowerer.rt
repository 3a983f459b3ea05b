//! Expressions: their parts from left to right, and what is put for them.

ghost use Rattle.std.specs.Prelude.{◌≡◌, ◌<◌, ◌+◌};
ghost use Rattle.gsl_lower_values.specs.Building as steps;
ghost use Rattle.gsl_lower_expr.specs.Coming as coming;
ghost use Rattle.gsl_lower_holders.specs.Flow.{Does, flow_of};

use crate::access::{operand, shape_or};
use crate::calls::{Passed, Passing, going_in, param_at};
use crate::found::Found;
use crate::rows::{count_splits, left_behind, swizzled};
use gsl_base::List;
use gsl_lower_holders::{FlowPlace, begin_choice, begin_short, fetch, hold, join, other_way};
use gsl_lower_places::{Part, Reached};
use gsl_lower_traits::{is_selected, is_short, traits_of};
use gsl_lower_values::{converted, logical, selected, unary};
use gsl_shapes::Shapes;
use gsl_spv::{BuildRefusal, Builder};
use gsl_tree::{Expr, ExprKind, Exprs, Interfaces, Params, Prototypes};
use gsl_types::{Direction, Scalar, Ty};
use gsl_words::Args;
use std::alloc::Global;

/// What expressions are lowered in: the struct types, the inputs and outputs, and the heads of functions of their program.
#[derive(Clone, Copy)]
pub struct Lowerer<'a> {
    pub alloc: Global,
    pub shapes: &'a Shapes<'a>,
    pub interfaces: &'a Interfaces,
    pub prototypes: &'a Prototypes,
}

impl<'a> Lowerer<'a> {
    /// The id of the value of an expression.
    #[cycle(expressions)]
    #[tactic(auto, using(crate::proofs::Steps::finds_step))]
    pub fn value(&self, b: &mut Builder, p: &mut FlowPlace, e: &Expr) -> Result<u32, BuildRefusal>
        ensures { Does result b.new p.new (coming.evaluates (coming.setting_of self.now.shapes.now self.now.interfaces.now self.now.prototypes.now) e.now (flow_of b.old p.old)) }
    {
        let found = self.found(b, p, &e.kind, &e.ty)?;
        self.value_from(b, p, &e.ty, found)
    }

    /// What an expression leads to.
    #[cycle(expressions)]
    #[tactic(auto, using(crate::proofs::Steps::finds_step))]
    pub fn reach(
        &self,
        b: &mut Builder,
        p: &mut FlowPlace,
        e: &Expr,
    ) -> Result<Reached, BuildRefusal>
        ensures { Does result b.new p.new (coming.reaches (coming.setting_of self.now.shapes.now self.now.interfaces.now self.now.prototypes.now) e.now (flow_of b.old p.old)) }
    {
        let found = self.found(b, p, &e.kind, &e.ty)?;
        self.reached_from(b, p, &e.ty, found)
    }

    /// A name, or another form.
    #[cycle(expressions)]
    #[tactic(auto, using(crate::proofs::Steps::finds_step))]
    fn found(
        &self,
        b: &mut Builder,
        p: &mut FlowPlace,
        kind: &ExprKind,
        ty: &Ty,
    ) -> Result<Found, BuildRefusal>
        ensures { Does result b.new p.new (coming.finds (coming.setting_of self.now.shapes.now self.now.interfaces.now self.now.prototypes.now) kind.now ty.now (flow_of b.old p.old)) }
    {
        match kind {
            ExprKind::Const(v) => Ok(Found::Value(self.constant(b, ty, v)?)),
            ExprKind::Local(number) => self.local(b, p, *number),
            ExprKind::Global(number) => self.global(b, p, *number),
            ExprKind::Param(number) => self.param(b, p, *number),
            ExprKind::Interface(number) => self.interface(b, p, *number),
            ExprKind::BlockMember(block, number) => self.in_block(b, p, *block, *number),
            ExprKind::Stage(var) => Ok(Found::Value(self.stage(b, p, *var, ty)?)),
            ExprKind::Length(a) => {
                let a = a.get();
                Ok(Found::Value(self.counted(b, p, &a.kind, &a.ty)?))
            }
            other => self.path(b, p, other, ty),
        }
    }

    /// A part of what an expression leads to, or another form.
    #[cycle(expressions)]
    #[tactic(auto, using(crate::proofs::Steps::finds_step))]
    fn path(
        &self,
        b: &mut Builder,
        p: &mut FlowPlace,
        kind: &ExprKind,
        ty: &Ty,
    ) -> Result<Found, BuildRefusal>
        ensures { Does result b.new p.new (coming.finds (coming.setting_of self.now.shapes.now self.now.interfaces.now self.now.prototypes.now) kind.now ty.now (flow_of b.old p.old)) }
    {
        match kind {
            ExprKind::Member(a, number) => {
                let r = self.reach(b, p, a.get())?;
                Ok(Found::Place(r.part_of(Part::Fixed(*number))?))
            }
            ExprKind::Index(a, i) => {
                let a = a.get();
                let i = i.get();
                let base = traits_of(a)?;
                let index = traits_of(i)?;
                let r = self.reach(b, p, a)?;
                let kept = self.before_index(b, p, &a.ty, base, index, r)?;
                let part = self.index_by(b, p, i, index.literal)?;
                Ok(Found::Place(self.after_index(b, p, &a.ty, index, kept, part)?))
            }
            ExprKind::Swizzle(a, lanes) => {
                let a = a.get();
                let r = self.reach(b, p, a)?;
                Ok(Found::Place(swizzled(self.alloc, &a.ty, lanes, r)?))
            }
            other => self.operation(b, p, other, ty),
        }
    }

    /// An index: a number that is known, or what is computed.
    #[cycle(expressions)]
    fn index_by(
        &self,
        b: &mut Builder,
        p: &mut FlowPlace,
        i: &Expr,
        literal: Option<u32>,
    ) -> Result<Part, BuildRefusal>
        ensures { Does result b.new p.new (coming.index_of (coming.setting_of self.now.shapes.now self.now.interfaces.now self.now.prototypes.now) i.now literal (flow_of b.old p.old)) }
    {
        match literal {
            Some(number) => Ok(Part::Fixed(number)),
            None => {
                let id = self.value(b, p, i)?;
                Ok(Part::By(shape_or(&i.ty).0, id))
            }
        }
    }

    /// An operator on one or two operands, or another form.
    #[cycle(expressions)]
    #[tactic(auto, using(crate::proofs::Steps::finds_step))]
    fn operation(
        &self,
        b: &mut Builder,
        p: &mut FlowPlace,
        kind: &ExprKind,
        ty: &Ty,
    ) -> Result<Found, BuildRefusal>
        ensures { Does result b.new p.new (coming.finds (coming.setting_of self.now.shapes.now self.now.interfaces.now self.now.prototypes.now) kind.now ty.now (flow_of b.old p.old)) }
    {
        match kind {
            ExprKind::Unary(op, a) => {
                let a = a.get();
                let x = self.value(b, p, a)?;
                Ok(Found::Value(unary(self.alloc, b, *op, operand(&a.ty, x))?))
            }
            ExprKind::Convert(a) => {
                let a = a.get();
                let x = self.value(b, p, a)?;
                let to = shape_or(ty).0;
                Ok(Found::Value(converted(self.alloc, b, to, operand(&a.ty, x))?))
            }
            ExprKind::Binary(op, left, right) => {
                let left = left.get();
                let right = right.get();
                let t = traits_of(right)?;
                let x = self.value(b, p, left)?;
                let kept = hold(b, p, t.splits, x)?;
                let y = self.value(b, p, right)?;
                let x = fetch(self.alloc, b, p, t.splits, &left.ty, kept)?;
                Ok(Found::Value(self.binary(b, *op, &left.ty, &right.ty, x, y)?))
            }
            other => self.choice(b, p, other, ty),
        }
    }

    /// `&&`, `||`, `^^` or `?:`, or another form.
    #[cycle(expressions)]
    #[tactic(auto, using(crate::proofs::Steps::finds_step))]
    fn choice(
        &self,
        b: &mut Builder,
        p: &mut FlowPlace,
        kind: &ExprKind,
        ty: &Ty,
    ) -> Result<Found, BuildRefusal>
        ensures { Does result b.new p.new (coming.finds (coming.setting_of self.now.shapes.now self.now.interfaces.now self.now.prototypes.now) kind.now ty.now (flow_of b.old p.old)) }
    {
        match kind {
            ExprKind::Logic(op, left, right) => {
                let left = left.get();
                let right = right.get();
                let t = traits_of(right)?;
                let x = self.value(b, p, left)?;
                if is_short(*op, t) {
                    let f = begin_short(b, p, *op, x)?;
                    let y = self.value(b, p, right)?;
                    return Ok(Found::Value(join(self.alloc, b, p, &Ty::One(Scalar::Bool), f, y)?));
                }
                let kept = hold(b, p, t.splits, x)?;
                let y = self.value(b, p, right)?;
                let x = fetch(self.alloc, b, p, t.splits, &left.ty, kept)?;
                Ok(Found::Value(logical(self.alloc, b, *op, x, y)?))
            }
            ExprKind::Choose(test, yes, no) => {
                let yes = yes.get();
                let no = no.get();
                let first = traits_of(yes)?;
                let second = traits_of(no)?;
                let x = self.value(b, p, test.get())?;
                if is_selected(ty, first, second) {
                    let y = self.value(b, p, yes)?;
                    let z = self.value(b, p, no)?;
                    return Ok(Found::Value(selected(self.alloc, b, shape_or(ty), x, y, z)?));
                }
                let f = begin_choice(b, p, x)?;
                let y = self.value(b, p, yes)?;
                other_way(b, p, f, y)?;
                let z = self.value(b, p, no)?;
                Ok(Found::Value(join(self.alloc, b, p, ty, f, z)?))
            }
            other => self.update(b, p, other, ty),
        }
    }

    /// An assignment or a step, or another form.
    #[cycle(expressions)]
    #[tactic(auto, using(crate::proofs::Steps::finds_step))]
    fn update(
        &self,
        b: &mut Builder,
        p: &mut FlowPlace,
        kind: &ExprKind,
        ty: &Ty,
    ) -> Result<Found, BuildRefusal>
        ensures { Does result b.new p.new (coming.finds (coming.setting_of self.now.shapes.now self.now.interfaces.now self.now.prototypes.now) kind.now ty.now (flow_of b.old p.old)) }
    {
        match kind {
            ExprKind::Assign(left, right) => {
                let left = left.get();
                let right = right.get();
                let t = traits_of(right)?;
                let r = self.reach(b, p, left)?;
                let kept = self.before_assign(b, p, &left.ty, t, r)?;
                let y = self.value(b, p, right)?;
                Ok(Found::Value(self.after_assign(b, p, &left.ty, t, kept, y)?))
            }
            ExprKind::Update(op, left, right) => {
                let left = left.get();
                let right = right.get();
                let t = traits_of(right)?;
                let r = self.reach(b, p, left)?;
                let kept = self.before_update(b, p, &left.ty, t, r)?;
                let y = self.value(b, p, right)?;
                Ok(Found::Value(self.after_update(b, p, *op, &left.ty, &right.ty, t, kept, y)?))
            }
            ExprKind::Step(op, a) => {
                let a = a.get();
                let r = self.reach(b, p, a)?;
                Ok(Found::Value(self.stepped_at(b, p, *op, &a.ty, r)?))
            }
            other => self.row(b, p, other, ty),
        }
    }

    /// A form with a row of parts.
    #[cycle(expressions)]
    #[tactic(auto, using(crate::proofs::Steps::finds_step))]
    fn row(
        &self,
        b: &mut Builder,
        p: &mut FlowPlace,
        kind: &ExprKind,
        ty: &Ty,
    ) -> Result<Found, BuildRefusal>
        ensures { Does result b.new p.new (coming.finds (coming.setting_of self.now.shapes.now self.now.interfaces.now self.now.prototypes.now) kind.now ty.now (flow_of b.old p.old)) }
    {
        match kind {
            ExprKind::Built(which, args) => {
                let kept = self.keeps(b, p, args)?;
                Ok(Found::Value(self.called(b, p, *which, args, kept.as_slice())?))
            }
            ExprKind::Build(args) => {
                let kept = self.keeps(b, p, args)?;
                Ok(Found::Value(self.constructed(b, p, ty, args, kept.as_slice())?))
            }
            ExprKind::Comma(items) => Ok(Found::Value(self.sequence(b, p, items)?)),
            ExprKind::Call(number, args) => {
                Ok(Found::Value(self.call(b, p, *number, args, ty)?))
            }
            _ => Err(BuildRefusal::Memory),
        }
    }

    /// The values of expressions from left to right, each kept where it has to wait.
    #[cycle(expressions)]
    fn keeps(&self, b: &mut Builder, p: &mut FlowPlace, es: &Exprs) -> Result<Args, BuildRefusal>
        ensures { Does result b.new p.new (coming.keeps_all (coming.setting_of self.now.shapes.now self.now.interfaces.now self.now.prototypes.now) es.now (flow_of b.old p.old)) }
    {
        let mut left = count_splits(es)?;
        let mut kept = List::new(self.alloc);
        for k in 0..es.len() {
            left = left_behind(left, &es[k])?;
            let x = self.value(b, p, &es[k])?;
            kept.push(hold(b, p, left > 0, x)?)?;
        }
        Ok(kept)
    }

    /// The values of expressions in their turn, of which the last counts.
    #[cycle(expressions)]
    fn sequence(
        &self,
        b: &mut Builder,
        p: &mut FlowPlace,
        items: &Exprs,
    ) -> Result<u32, BuildRefusal>
        ensures { Does result b.new p.new (coming.sequence_of (coming.setting_of self.now.shapes.now self.now.interfaces.now self.now.prototypes.now) 0 items.now (flow_of b.old p.old)) }
    {
        let mut last = 0;
        for k in 0..items.len() {
            last = self.value(b, p, &items[k])?;
        }
        Ok(last)
    }

    /// A call of a function of the program, by its head.
    #[cycle(expressions)]
    #[tactic(auto, using(crate::proofs::Steps::calls_step))]
    fn call(
        &self,
        b: &mut Builder,
        p: &mut FlowPlace,
        number: u32,
        args: &Exprs,
        ty: &Ty,
    ) -> Result<u32, BuildRefusal>
        ensures { Does result b.new p.new (coming.calls (coming.setting_of self.now.shapes.now self.now.interfaces.now self.now.prototypes.now) number args.now ty.now (flow_of b.old p.old)) }
    {
        if number as usize >= self.prototypes.len() {
            return Err(BuildRefusal::Memory);
        }
        let params = &self.prototypes[number as usize].params;
        let passed = self.passes_all(b, p, args, params)?;
        self.called_with(b, p, number, params, args, ty, passed.as_slice())
    }

    /// The arguments of a call from left to right.
    #[cycle(expressions)]
    fn passes_all(
        &self,
        b: &mut Builder,
        p: &mut FlowPlace,
        es: &Exprs,
        params: &Params,
    ) -> Result<Passing, BuildRefusal>
        ensures { Does result b.new p.new (coming.passes_all (coming.setting_of self.now.shapes.now self.now.interfaces.now self.now.prototypes.now) es.now params.now (flow_of b.old p.old)) }
    {
        let mut left = count_splits(es)?;
        let mut passed = List::new(self.alloc);
        for k in 0..es.len() {
            left = left_behind(left, &es[k])?;
            if k >= params.len() {
                return Err(BuildRefusal::Memory);
            }
            let param = param_at(params, k);
            let one = self.passes(b, p, &es[k], left > 0, param.0, &param.1)?;
            passed.push(one)?;
        }
        Ok(passed)
    }

    /// An argument of a call.
    #[cycle(expressions)]
    #[tactic(auto, using(crate::proofs::Steps::calls_step))]
    fn passes(
        &self,
        b: &mut Builder,
        p: &mut FlowPlace,
        arg: &Expr,
        waits: bool,
        way: Direction,
        ty: &Ty,
    ) -> Result<Passed, BuildRefusal>
        ensures { Does result b.new p.new (coming.passes (coming.setting_of self.now.shapes.now self.now.interfaces.now self.now.prototypes.now) waits way ty.now arg.now (flow_of b.old p.old)) }
    {
        match way {
            Direction::In => {
                let v = self.value(b, p, arg)?;
                going_in(b, p, v)
            }
            Direction::Out => {
                let r = self.reach(b, p, arg)?;
                self.passed_out(b, p, waits, ty, &arg.ty, r)
            }
            Direction::InOut => {
                let r = self.reach(b, p, arg)?;
                self.passed_both(b, p, waits, &arg.ty, r)
            }
        }
    }
}
