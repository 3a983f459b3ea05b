//! Statements.

ghost use Rattle.std.specs.Prelude.{◌≡◌, drop};
ghost use Rattle.gsl_lower_expr.specs.Coming.{setting_of};
ghost use Rattle.gsl_lower_holders.specs.Flow.{Does, flow_of};
ghost use Rattle.gsl_lower_stmt.specs.Coming as coming;

use crate::body::Body;
use crate::ends::{begin_else, begin_if, end_if, leave_by, seal};
use crate::exits::Exits;
use crate::loops::{begin_loop, begin_step, in_loop};
use crate::switches::{begin_switch, in_switch, label_at, next_or};
use gsl_instr::op;
use gsl_lower_holders::{FlowPlace, opening};
use gsl_spv::{BuildRefusal, Builder};
use gsl_tree::{Arms, Expr, Stmt, Stmts};

impl<'a> Body<'a> {
    /// A statement; and whether it leaves, so that nothing behind it is reached.
    #[cycle(statements)]
    #[tactic(auto, using(crate::proofs::Steps::puts_step))]
    pub fn statement(
        &self,
        b: &mut Builder,
        p: &mut FlowPlace,
        s: &Stmt,
        exits: Exits,
    ) -> Result<bool, BuildRefusal>
        ensures { Does result b.new p.new (coming.puts (setting_of self.now.lowerer.shapes.now self.now.lowerer.interfaces.now self.now.lowerer.prototypes.now) self.now.locals.now s.now exits (flow_of b.old p.old)) }
    {
        match s {
            Stmt::Empty => Ok(false),
            Stmt::Eval(e) => {
                self.lowerer.value(b, p, e)?;
                Ok(false)
            }
            Stmt::Declare(number, init) => {
                self.declare(b, p, *number, init)?;
                Ok(false)
            }
            Stmt::Break => {
                leave_by(b, p, exits.break_to)?;
                Ok(true)
            }
            Stmt::Continue => {
                leave_by(b, p, exits.continue_to)?;
                Ok(true)
            }
            Stmt::Return(e) => {
                self.returned(b, p, e)?;
                Ok(true)
            }
            Stmt::Discard => {
                b.put(op::KILL, &[])?;
                Ok(true)
            }
            other => self.compound(b, p, other, exits),
        }
    }

    /// A statement with statements in it.
    #[cycle(statements)]
    #[tactic(auto, using(crate::proofs::Steps::puts_step))]
    fn compound(
        &self,
        b: &mut Builder,
        p: &mut FlowPlace,
        s: &Stmt,
        exits: Exits,
    ) -> Result<bool, BuildRefusal>
        ensures { Does result b.new p.new (coming.puts (setting_of self.now.lowerer.shapes.now self.now.lowerer.interfaces.now self.now.lowerer.prototypes.now) self.now.locals.now s.now exits (flow_of b.old p.old)) }
    {
        match s {
            Stmt::Group(ss) => self.row(b, p, ss, exits),
            Stmt::If(test, first, other) => {
                let x = self.lowerer.value(b, p, test)?;
                let f = begin_if(b, p, x)?;
                let left = self.statement(b, p, first.get(), exits)?;
                begin_else(b, p, f, left)?;
                match other {
                    None => {
                        end_if(b, p, f, false)?;
                        Ok(false)
                    }
                    Some(other) => {
                        let left = self.statement(b, p, other.get(), exits)?;
                        end_if(b, p, f, left)?;
                        Ok(false)
                    }
                }
            }
            Stmt::Loop {
                test,
                step,
                body,
                test_last,
            } => {
                self.looped(b, p, body.get(), test, step, *test_last)?;
                Ok(false)
            }
            Stmt::Switch(e, arms) => {
                let x = self.lowerer.value(b, p, e)?;
                let l = begin_switch(self.lowerer.alloc, b, p, arms, x)?;
                self.falls(b, p, arms, l.arms.as_slice(), l.end, exits)?;
                opening(b, p, l.end)?;
                Ok(false)
            }
            _ => Err(BuildRefusal::Memory),
        }
    }

    /// Statements one behind the other, up to the first that leaves; and whether one does.
    #[cycle(statements)]
    pub fn row(
        &self,
        b: &mut Builder,
        p: &mut FlowPlace,
        ss: &Stmts,
        exits: Exits,
    ) -> Result<bool, BuildRefusal>
        ensures { Does result b.new p.new (coming.row (setting_of self.now.lowerer.shapes.now self.now.lowerer.interfaces.now self.now.lowerer.prototypes.now) self.now.locals.now ss.now exits (flow_of b.old p.old)) }
    {
        for k in 0..ss.len() {
            let left = self.statement(b, p, &ss[k], exits)?;
            if left {
                return Ok(true);
            }
        }
        Ok(false)
    }

    /// The arms of a `switch`, each of which falls through to the next.
    #[cycle(statements)]
    fn falls(
        &self,
        b: &mut Builder,
        p: &mut FlowPlace,
        arms: &Arms,
        labels: &[u32],
        end: u32,
        exits: Exits,
    ) -> Result<(), BuildRefusal>
        ensures { Does result b.new p.new (coming.falls (setting_of self.now.lowerer.shapes.now self.now.lowerer.interfaces.now self.now.lowerer.prototypes.now) self.now.locals.now end labels.now arms.now exits (flow_of b.old p.old)) }
    {
        for k in 0..arms.len() {
            if k >= labels.len() {
                return Err(BuildRefusal::Memory);
            }
            let label = label_at(labels, k);
            let arm = &arms[k];
            opening(b, p, *label)?;
            let left = self.row(b, p, &arm.body, in_switch(end, exits))?;
            seal(b, p, left, next_or(labels, k + 1, end))?;
        }
        Ok(())
    }

    /// A loop.
    #[cycle(statements)]
    #[tactic(auto, using(crate::proofs::Steps::puts_step))]
    fn looped(
        &self,
        b: &mut Builder,
        p: &mut FlowPlace,
        body: &Stmt,
        test: &Option<Expr>,
        step: &Option<Expr>,
        test_last: bool,
    ) -> Result<(), BuildRefusal>
        ensures { Does result b.new p.new (coming.loops (setting_of self.now.lowerer.shapes.now self.now.lowerer.interfaces.now self.now.lowerer.prototypes.now) self.now.locals.now test.now step.now body.now test_last (flow_of b.old p.old)) }
    {
        let l = begin_loop(b, p)?;
        self.test_first(b, p, test_last, test, l)?;
        let left = self.statement(b, p, body, in_loop(l))?;
        begin_step(b, p, l, left)?;
        self.step(b, p, step)?;
        self.test_last(b, p, test_last, test, l)?;
        opening(b, p, l.end)
    }
}
