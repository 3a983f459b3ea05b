//! Expressions: their parts from left to right, and what is made of them.

ghost use Rattle.gsl_perform.specs.Calling.{Calls};
ghost use Rattle.gsl_perform.specs.Coming as coming;
ghost use Rattle.gsl_perform.specs.Does.{Does};
ghost use Rattle.gsl_perform.specs.Framed.{around};

use crate::arguments::param_at;
use crate::around::Around;
use crate::frame::Frame;
use crate::parts::{
    Held, access_from, built, counted, fails, given, indexed, last_of, operated, signed_first,
    stepped, storing, updated,
};
use crate::stop::Stop;
use crate::world::{Called, Found, Passed, World};
use gsl_base::List;
use gsl_compute::{build_value, copy_value, decides, is_signed, logic_word, unary_value, word_in};
use gsl_store::{Access, Root};
use gsl_tree::{Expr, ExprKind, Exprs};
use gsl_types::{Direction, Ty};
use gsl_values::{Value, Values};
use std::alloc::Global;

impl<'a, F: Fn(Global, &Frame<'_>, usize, u32, Values, &mut World) -> Result<Called, Stop>> Around<
    'a,
    F,
> {
    /// The value of an expression.
    #[cycle(expressions)]
    #[tactic(auto, using(crate::proofs::Steps::finds_step))]
    pub fn value(&self, e: &Expr, w: &mut World) -> Result<Value, Stop>
        requires { Calls self.now.frame.now self.now.depth (F.pre self.now.call) (F.post self.now.call) }
        ensures { Does result w.new (coming.evaluates (around self.now.frame.now self.now.depth) e.now w.old.store w.old.units) }
    {
        let found = self.found(&e.kind, &e.ty, w)?;
        Ok(self.frame.value_from(self.alloc, &e.ty, found, &w.store)?)
    }

    /// What an expression leads to.
    #[cycle(expressions)]
    #[tactic(auto, using(crate::proofs::Steps::finds_step))]
    pub fn access(&self, e: &Expr, w: &mut World) -> Result<Access, Stop>
        requires { Calls self.now.frame.now self.now.depth (F.pre self.now.call) (F.post self.now.call) }
        ensures { Does result w.new (coming.accesses (around self.now.frame.now self.now.depth) e.now w.old.store w.old.units) }
    {
        let found = self.found(&e.kind, &e.ty, w)?;
        Ok(access_from(self.alloc, found))
    }

    /// A name, or another form.
    #[cycle(expressions)]
    #[tactic(auto, using(crate::proofs::Steps::finds_step))]
    fn found(&self, kind: &ExprKind, ty: &Ty, w: &mut World) -> Result<Found, Stop>
        requires { Calls self.now.frame.now self.now.depth (F.pre self.now.call) (F.post self.now.call) }
        ensures { Does result w.new (coming.finds (around self.now.frame.now self.now.depth) kind.now ty.now w.old.store w.old.units) }
    {
        match kind {
            ExprKind::Const(v) => Ok(Found::Value(copy_value(self.alloc, v)?)),
            ExprKind::Local(number) => Ok(Found::Place(Access::whole(
                self.alloc,
                Root::Local(*number),
            ))),
            ExprKind::Global(number) => Ok(Found::Place(Access::whole(
                self.alloc,
                Root::Global(*number),
            ))),
            ExprKind::Param(number) => Ok(Found::Place(Access::whole(
                self.alloc,
                Root::Param(*number),
            ))),
            ExprKind::Interface(number) => Ok(Found::Place(Access::whole(
                self.alloc,
                Root::Interface(*number),
            ))),
            ExprKind::BlockMember(block, number) => {
                Ok(Found::Place(Access::member_root(self.alloc, *block, *number)?))
            }
            other => self.path(other, ty, w),
        }
    }

    /// A part of what an expression leads to, or another form.
    #[cycle(expressions)]
    #[tactic(auto, using(crate::proofs::Steps::finds_step))]
    fn path(&self, kind: &ExprKind, ty: &Ty, w: &mut World) -> Result<Found, Stop>
        requires { Calls self.now.frame.now self.now.depth (F.pre self.now.call) (F.post self.now.call) }
        ensures { Does result w.new (coming.finds (around self.now.frame.now self.now.depth) kind.now ty.now w.old.store w.old.units) }
    {
        match kind {
            ExprKind::Member(a, number) => {
                let x = self.access(a.get(), w)?;
                Ok(Found::Place(x.member_of(*number)?))
            }
            ExprKind::Index(a, i) => {
                let x = self.access(a.get(), w)?;
                let index = self.value(i.get(), w)?;
                Ok(Found::Place(indexed(self.alloc, x, word_in(&index), w)?))
            }
            ExprKind::Swizzle(a, lanes) => {
                let x = self.access(a.get(), w)?;
                Ok(Found::Place(x.swizzle_of(self.alloc, lanes)?))
            }
            other => self.operation(other, ty, w),
        }
    }

    /// An operator over its operands, or another form.
    #[cycle(expressions)]
    #[tactic(auto, using(crate::proofs::Steps::finds_step))]
    fn operation(&self, kind: &ExprKind, ty: &Ty, w: &mut World) -> Result<Found, Stop>
        requires { Calls self.now.frame.now self.now.depth (F.pre self.now.call) (F.post self.now.call) }
        ensures { Does result w.new (coming.finds (around self.now.frame.now self.now.depth) kind.now ty.now w.old.store w.old.units) }
    {
        match kind {
            ExprKind::Unary(op, a) => {
                let v = self.value(a.get(), w)?;
                Ok(Found::Value(unary_value(self.alloc, *op, &v)?))
            }
            ExprKind::Binary(op, a, b) => {
                let x = self.value(a.get(), w)?;
                let y = self.value(b.get(), w)?;
                let signed = is_signed(&a.get().ty);
                Ok(Found::Value(operated(self.alloc, *op, signed, &x, &y, w)?))
            }
            ExprKind::Convert(a) => Ok(Found::Value(self.value(a.get(), w)?)),
            ExprKind::Length(a) => Ok(Found::Value(counted(self.alloc, a.get(), &w.store)?)),
            other => self.choice(other, ty, w),
        }
    }

    /// `&&`, `||`, `^^` or `?:`, or another form.
    #[cycle(expressions)]
    #[tactic(auto, using(crate::proofs::Steps::finds_step))]
    fn choice(&self, kind: &ExprKind, ty: &Ty, w: &mut World) -> Result<Found, Stop>
        requires { Calls self.now.frame.now self.now.depth (F.pre self.now.call) (F.post self.now.call) }
        ensures { Does result w.new (coming.finds (around self.now.frame.now self.now.depth) kind.now ty.now w.old.store w.old.units) }
    {
        match kind {
            ExprKind::Logic(op, a, b) => {
                let x = self.value(a.get(), w)?;
                if decides(*op, word_in(&x)) {
                    return Ok(Found::Value(x));
                }
                let y = self.value(b.get(), w)?;
                Ok(Found::Value(Value::Word(logic_word(*op, word_in(&x), word_in(&y)))))
            }
            ExprKind::Choose(test, a, b) => {
                let t = self.value(test.get(), w)?;
                if fails(&t) {
                    return Ok(Found::Value(self.value(b.get(), w)?));
                }
                Ok(Found::Value(self.value(a.get(), w)?))
            }
            other => self.update(other, ty, w),
        }
    }

    /// An assignment or a step, or another form.
    #[cycle(expressions)]
    #[tactic(auto, using(crate::proofs::Steps::finds_step))]
    fn update(&self, kind: &ExprKind, ty: &Ty, w: &mut World) -> Result<Found, Stop>
        requires { Calls self.now.frame.now self.now.depth (F.pre self.now.call) (F.post self.now.call) }
        ensures { Does result w.new (coming.finds (around self.now.frame.now self.now.depth) kind.now ty.now w.old.store w.old.units) }
    {
        match kind {
            ExprKind::Assign(a, b) => {
                let x = self.access(a.get(), w)?;
                let v = self.value(b.get(), w)?;
                Ok(Found::Value(storing(self.alloc, &x, v, w)?))
            }
            ExprKind::Update(op, a, b) => {
                let before = self.held(a.get(), w)?;
                let y = self.value(b.get(), w)?;
                let signed = is_signed(&a.get().ty);
                Ok(Found::Value(updated(self.alloc, *op, signed, before, &y, w)?))
            }
            ExprKind::Step(op, a) => {
                let before = self.held(a.get(), w)?;
                Ok(Found::Value(stepped(self.alloc, *op, before, w)?))
            }
            other => self.row(other, ty, w),
        }
    }

    /// What an expression leads to, with the value that is read there.
    #[cycle(expressions)]
    #[tactic(auto, using(crate::proofs::Steps::finds_step))]
    fn held(&self, e: &Expr, w: &mut World) -> Result<Held, Stop>
        requires { Calls self.now.frame.now self.now.depth (F.pre self.now.call) (F.post self.now.call) }
        ensures { Does result w.new (coming.holds (around self.now.frame.now self.now.depth) e.now w.old.store w.old.units) }
    {
        let x = self.access(e, w)?;
        Ok(self.frame.held(self.alloc, x, &e.ty, &w.store)?)
    }

    /// A form with a row of parts.
    #[cycle(expressions)]
    #[tactic(auto, using(crate::proofs::Steps::finds_step))]
    fn row(&self, kind: &ExprKind, ty: &Ty, w: &mut World) -> Result<Found, Stop>
        requires { Calls self.now.frame.now self.now.depth (F.pre self.now.call) (F.post self.now.call) }
        ensures { Does result w.new (coming.finds (around self.now.frame.now self.now.depth) kind.now ty.now w.old.store w.old.units) }
    {
        match kind {
            ExprKind::Call(number, args) => {
                let passed = self.arguments(args, self.frame.params_of(*number), w)?;
                Ok(Found::Value(self.calls(*number, passed.as_slice(), w)?))
            }
            ExprKind::Built(which, args) => {
                let vs = self.values(args, w)?;
                Ok(Found::Value(built(self.alloc, *which, signed_first(args), &vs, w)?))
            }
            ExprKind::Build(args) => {
                let vs = self.values(args, w)?;
                Ok(Found::Value(build_value(self.alloc, ty, vs)?))
            }
            ExprKind::Comma(items) => {
                let vs = self.values(items, w)?;
                Ok(Found::Value(last_of(self.alloc, vs)))
            }
            ExprKind::Stage(var) => Ok(Found::Value(self.frame.stage_value(self.alloc, *var)?)),
            _ => Err(Stop::Memory),
        }
    }

    /// The values of expressions, from left to right.
    #[cycle(expressions)]
    fn values(&self, es: &Exprs, w: &mut World) -> Result<Values, Stop>
        requires { Calls self.now.frame.now self.now.depth (F.pre self.now.call) (F.post self.now.call) }
        ensures { Does result w.new (coming.evaluates_all (around self.now.frame.now self.now.depth) es.now w.old.store w.old.units) }
    {
        let mut given = List::new(self.alloc);
        for k in 0..es.len() {
            given.push(self.value(&es[k], w)?)?;
        }
        Ok(given)
    }

    /// The arguments of a call, from left to right.
    #[cycle(expressions)]
    fn arguments(
        &self,
        args: &Exprs,
        params: &[(Direction, Ty)],
        w: &mut World,
    ) -> Result<List<Passed>, Stop>
        requires { Calls self.now.frame.now self.now.depth (F.pre self.now.call) (F.post self.now.call) }
        ensures { Does result w.new (coming.passes_all (around self.now.frame.now self.now.depth) params.now args.now w.old.store w.old.units) }
    {
        let mut given = List::new(self.alloc);
        for k in 0..params.len().min(args.len()) {
            let (direction, ty) = param_at(params, k);
            given.push(self.argument(&args[k], *direction, ty, w)?)?;
        }
        Ok(given)
    }

    /// The value with which a parameter begins, and where its value goes back to.
    #[cycle(expressions)]
    #[tactic(auto, using(crate::proofs::Steps::finds_step))]
    fn argument(
        &self,
        arg: &Expr,
        direction: Direction,
        ty: &Ty,
        w: &mut World,
    ) -> Result<Passed, Stop>
        requires { Calls self.now.frame.now self.now.depth (F.pre self.now.call) (F.post self.now.call) }
        ensures { Does result w.new (coming.passes (around self.now.frame.now self.now.depth) direction ty.now arg.now w.old.store w.old.units) }
    {
        match direction {
            Direction::In => {
                let v = self.value(arg, w)?;
                Ok(given(v))
            }
            Direction::Out => {
                let x = self.access(arg, w)?;
                Ok(self.frame.begun(self.alloc, x, ty)?)
            }
            Direction::InOut => {
                let x = self.access(arg, w)?;
                Ok(self.frame.lent(self.alloc, x, &arg.ty, &w.store)?)
            }
        }
    }
}
