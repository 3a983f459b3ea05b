//! Statements, by how they are left.

ghost use Rattle.std.specs.Prelude.{◌≡◌, drop};
ghost use Rattle.gsl_meaning.specs.Statements.{runs};
ghost use Rattle.gsl_perform.specs.Calling.{Calls};
ghost use Rattle.gsl_perform.specs.Does.{Does};
ghost use Rattle.gsl_perform.specs.Framed.{around};
ghost use Rattle.gsl_flow.specs.Flows.{Leaves};
ghost use Rattle.gsl_flow.specs.Performing as spec;

use crate::arms::entered;
use crate::body::{Body, spend};
use crate::left::{Left, Turn, behind_switch};
use gsl_compute::word_in;
use gsl_perform::{Called, Frame, Stop, World, fails};
use gsl_tree::{Arms, Expr, Stmt, Stmts};
use gsl_values::Values;
use std::alloc::Global;

impl<'a, F: Fn(Global, &Frame<'_>, usize, u32, Values, &mut World) -> Result<Called, Stop>> Body<
    'a,
    F,
> {
    /// A statement.
    #[cycle(statements)]
    #[tactic(auto, using(crate::proofs::Steps::runs_step))]
    pub fn statement(&self, s: &Stmt, w: &mut World) -> Result<Left, Stop>
        requires { Calls self.now.around.frame.now self.now.around.depth (F.pre self.now.around.call) (F.post self.now.around.call) }
        ensures { Leaves result w.new (runs (around self.now.around.frame.now self.now.around.depth) self.now.locals.now s.now w.old.store w.old.units) }
    {
        match s {
            Stmt::Empty => Ok(Left::Normal),
            Stmt::Eval(e) => {
                self.around.value(e, w)?;
                Ok(Left::Normal)
            }
            Stmt::Declare(number, init) => self.declare(*number, init, w),
            Stmt::Break => Ok(Left::Broke),
            Stmt::Continue => Ok(Left::Continued),
            Stmt::Return(e) => self.returned(e, w),
            Stmt::Discard => Err(Stop::Ends),
            other => self.compound(other, w),
        }
    }

    /// A statement with statements in it.
    #[cycle(statements)]
    #[tactic(auto, using(crate::proofs::Steps::runs_step))]
    fn compound(&self, s: &Stmt, w: &mut World) -> Result<Left, Stop>
        requires { Calls self.now.around.frame.now self.now.around.depth (F.pre self.now.around.call) (F.post self.now.around.call) }
        ensures { Leaves result w.new (runs (around self.now.around.frame.now self.now.around.depth) self.now.locals.now s.now w.old.store w.old.units) }
    {
        match s {
            Stmt::Group(ss) => self.row(ss, w),
            Stmt::If(test, first, other) => {
                let v = self.around.value(test, w)?;
                if !fails(&v) {
                    return self.statement(first.get(), w);
                }
                match other {
                    None => Ok(Left::Normal),
                    Some(other) => self.statement(other.get(), w),
                }
            }
            Stmt::Loop {
                test,
                step,
                body,
                test_last,
            } => self.looped(body.get(), test, step, *test_last, w),
            Stmt::Switch(e, arms) => {
                let v = self.around.value(e, w)?;
                let left = self.arms(arms, entered(word_in(&v), arms), w)?;
                Ok(behind_switch(left))
            }
            _ => Err(Stop::Memory),
        }
    }

    /// Statements one behind the other.
    #[cycle(statements)]
    pub fn row(&self, ss: &Stmts, w: &mut World) -> Result<Left, Stop>
        requires { Calls self.now.around.frame.now self.now.around.depth (F.pre self.now.around.call) (F.post self.now.around.call) }
        ensures { Leaves result w.new (spec.row (around self.now.around.frame.now self.now.around.depth) self.now.locals.now ss.now w.old.store w.old.units) }
    {
        for k in 0..ss.len() {
            match self.statement(&ss[k], w)? {
                Left::Normal => {}
                Left::Broke => return Ok(Left::Broke),
                Left::Continued => return Ok(Left::Continued),
                Left::Returned(v) => return Ok(Left::Returned(v)),
            }
        }
        Ok(Left::Normal)
    }

    /// Arms from one on: each falls through to the next.
    #[cycle(statements)]
    fn arms(&self, arms: &Arms, from: usize, w: &mut World) -> Result<Left, Stop>
        requires { Calls self.now.around.frame.now self.now.around.depth (F.pre self.now.around.call) (F.post self.now.around.call) }
        ensures { Leaves result w.new (spec.falls (around self.now.around.frame.now self.now.around.depth) self.now.locals.now (drop from arms.now) w.old.store w.old.units) }
    {
        for k in from..arms.len() {
            match self.row(&arms[k].body, w)? {
                Left::Normal => {}
                Left::Broke => return Ok(Left::Broke),
                Left::Continued => return Ok(Left::Continued),
                Left::Returned(v) => return Ok(Left::Returned(v)),
            }
        }
        Ok(Left::Normal)
    }

    /// A loop.
    #[cycle(statements)]
    #[tactic(auto, using(crate::proofs::Loops::loops_step))]
    fn looped(
        &self,
        body: &Stmt,
        test: &Option<Expr>,
        step: &Option<Expr>,
        test_last: bool,
        w: &mut World,
    ) -> Result<Left, Stop>
        requires { Calls self.now.around.frame.now self.now.around.depth (F.pre self.now.around.call) (F.post self.now.around.call) }
        ensures { Leaves result w.new (spec.loops (around self.now.around.frame.now self.now.around.depth) self.now.locals.now test.now step.now body.now test_last w.old.store w.old.units) }
    {
        if test_last {
            return self.turns(body, test, step, w);
        }
        if self.test(test, w)? {
            return self.turns(body, test, step, w);
        }
        Ok(Left::Normal)
    }

    /// Turns of a loop.
    #[cycle(statements)]
    fn turns(
        &self,
        body: &Stmt,
        test: &Option<Expr>,
        step: &Option<Expr>,
        w: &mut World,
    ) -> Result<Left, Stop>
        requires { Calls self.now.around.frame.now self.now.around.depth (F.pre self.now.around.call) (F.post self.now.around.call) }
        ensures { Leaves result w.new (spec.turns_of (around self.now.around.frame.now self.now.around.depth) self.now.locals.now test.now step.now body.now w.old.store w.old.units) }
    {
        for _turn in 0..u64::MAX {
            match self.turn(body, test, step, w)? {
                Turn::Again => {}
                Turn::Over(left) => return Ok(left),
            }
        }
        Err(Stop::Memory)
    }

    /// A turn of a loop.
    #[cycle(statements)]
    #[tactic(auto, using(crate::proofs::Loops::loops_step))]
    fn turn(
        &self,
        body: &Stmt,
        test: &Option<Expr>,
        step: &Option<Expr>,
        w: &mut World,
    ) -> Result<Turn, Stop>
        requires { Calls self.now.around.frame.now self.now.around.depth (F.pre self.now.around.call) (F.post self.now.around.call) }
        ensures { Does result w.new (spec.turn (around self.now.around.frame.now self.now.around.depth) self.now.locals.now test.now step.now body.now w.old.store w.old.units) }
    {
        spend(w)?;
        match self.statement(body, w)? {
            Left::Normal | Left::Continued => self.turn_on(test, step, w),
            Left::Broke => Ok(Turn::Over(Left::Normal)),
            Left::Returned(v) => Ok(Turn::Over(Left::Returned(v))),
        }
    }
}
