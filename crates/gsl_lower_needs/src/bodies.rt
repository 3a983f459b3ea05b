//! What is asked for at statements, and which of them leave.

ghost use Rattle.gsl_lower_needs.specs.Asking.{Does};
ghost use Rattle.gsl_lower_needs.specs.Bodies as spec;

use crate::asker::Asker;
use crate::need::Needs;
use gsl_base::Memory;
use gsl_tree::{Arms, Expr, Stmt, Stmts};

impl<'a> Asker<'a> {
    #[tactic(auto, using(crate::proofs::StmtSteps::parts_step))]
    fn any_value(&self, e: &Option<Expr>, needs: &mut Needs) -> Result<(), Memory>
        ensures { Does result needs.new (spec.any_value self.now.prototypes.now e.now needs.old) }
    {
        match e {
            None => Ok(()),
            Some(e) => self.value(e, needs),
        }
    }

    /// At a statement; and whether it leaves.
    #[cycle(statements)]
    #[tactic(auto, using(crate::proofs::StmtSteps::bodies_step))]
    fn statement(&self, s: &Stmt, needs: &mut Needs) -> Result<bool, Memory>
        ensures { Does result needs.new (spec.statement self.now.prototypes.now s.now needs.old) }
    {
        match s {
            Stmt::Empty => Ok(false),
            Stmt::Eval(e) => {
                self.value(e, needs)?;
                Ok(false)
            }
            Stmt::Declare(_, init) => {
                self.any_value(init, needs)?;
                Ok(false)
            }
            Stmt::Break | Stmt::Continue | Stmt::Discard => Ok(true),
            Stmt::Return(e) => {
                self.any_value(e, needs)?;
                Ok(true)
            }
            other => self.compound(other, needs),
        }
    }

    /// At a statement with statements in it; and whether it leaves.
    #[cycle(statements)]
    #[tactic(auto, using(crate::proofs::StmtSteps::bodies_step))]
    fn compound(&self, s: &Stmt, needs: &mut Needs) -> Result<bool, Memory>
        ensures { Does result needs.new (spec.statement self.now.prototypes.now s.now needs.old) }
    {
        match s {
            Stmt::Group(ss) => self.body(ss, needs),
            Stmt::If(test, first, other) => {
                self.value(test, needs)?;
                self.statement(first.get(), needs)?;
                match other {
                    None => Ok(false),
                    Some(other) => {
                        self.statement(other.get(), needs)?;
                        Ok(false)
                    }
                }
            }
            Stmt::Loop {
                test,
                step,
                body,
                test_last,
            } => {
                self.looped(body.get(), test, step, *test_last, needs)?;
                Ok(false)
            }
            Stmt::Switch(e, arms) => {
                self.value(e, needs)?;
                self.arms(arms, needs)?;
                Ok(false)
            }
            _ => Err(Memory),
        }
    }

    /// At a loop.
    #[cycle(statements)]
    #[tactic(auto, using(crate::proofs::StmtSteps::bodies_step))]
    fn looped(
        &self,
        body: &Stmt,
        test: &Option<Expr>,
        step: &Option<Expr>,
        test_last: bool,
        needs: &mut Needs,
    ) -> Result<(), Memory>
        ensures { Does result needs.new (spec.loops self.now.prototypes.now test.now step.now body.now test_last needs.old) }
    {
        if test_last {
            self.statement(body, needs)?;
            self.any_value(step, needs)?;
            return self.any_value(test, needs);
        }
        self.any_value(test, needs)?;
        self.statement(body, needs)?;
        self.any_value(step, needs)
    }

    /// At statements one behind the other; and whether one of them leaves, behind which nothing is asked for.
    #[cycle(statements)]
    pub fn body(&self, ss: &Stmts, needs: &mut Needs) -> Result<bool, Memory>
        ensures { Does result needs.new (spec.row self.now.prototypes.now ss.now needs.old) }
    {
        for k in 0..ss.len() {
            let left = self.statement(&ss[k], needs)?;
            if left {
                return Ok(true);
            }
        }
        Ok(false)
    }

    #[cycle(statements)]
    fn arms(&self, arms: &Arms, needs: &mut Needs) -> Result<(), Memory>
        ensures { Does result needs.new (spec.arms self.now.prototypes.now arms.now needs.old) }
    {
        for k in 0..arms.len() {
            self.body(&arms[k].body, needs)?;
        }
        Ok(())
    }
}
