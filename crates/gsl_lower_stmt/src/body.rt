//! What the statements of a function are lowered in, and what they do with expressions alone.

ghost use Rattle.gsl_lower_expr.specs.Coming.{setting_of};
ghost use Rattle.gsl_lower_holders.specs.Flow.{Does, flow_of};
ghost use Rattle.gsl_lower_stmt.specs.Coming as coming;
ghost use Rattle.gsl_lower_stmt.specs.Parts as spec;

use crate::ends::branch;
use crate::labels::LoopLabels;
use crate::loops::{again_if, enter_body};
use gsl_instr::op;
use gsl_lower_expr::{Lowerer, zeros};
use gsl_lower_holders::{FlowPlace, id_in};
use gsl_spv::{BuildRefusal, Builder};
use gsl_tree::Expr;
use gsl_types::{Ty, Types};

/// What the statements of a function are lowered in: what expressions are, and the types of its local variables.
#[derive(Clone, Copy)]
pub struct Body<'a> {
    pub lowerer: Lowerer<'a>,
    pub locals: &'a Types,
}

impl<'a> Body<'a> {
    /// Zeros of a local variable.
    fn zeros_of(&self, b: &mut Builder, p: &FlowPlace, number: u32) -> Result<u32, BuildRefusal>
        ensures { Does result b.new p.now (calls.zeros (slice_index_or self.now.locals.now number Void) (flow_of b.old p.now)) }
    {
        if number as usize >= self.locals.len() {
            return zeros(b, p, &Ty::Void);
        }
        zeros(b, p, &self.locals[number as usize])
    }

    /// The value with which a local variable begins.
    #[tactic(auto, using(crate::proofs::Steps::parts_step))]
    fn begin(
        &self,
        b: &mut Builder,
        p: &mut FlowPlace,
        number: u32,
        init: &Option<Expr>,
    ) -> Result<u32, BuildRefusal>
        ensures { Does result b.new p.new (coming.begins (setting_of self.now.lowerer.shapes.now self.now.lowerer.interfaces.now self.now.lowerer.prototypes.now) self.now.locals.now number init.now (flow_of b.old p.old)) }
    {
        match init {
            None => self.zeros_of(b, p, number),
            Some(e) => self.lowerer.value(b, p, e),
        }
    }

    #[tactic(auto, unfolding(crate::specs::Parts::begins_with))]
    fn begins_with(
        &self,
        b: &mut Builder,
        p: &FlowPlace,
        number: u32,
        v: u32,
    ) -> Result<(), BuildRefusal>
        ensures { Does result b.new p.now (spec.begins_with number v (flow_of b.old p.now)) }
    {
        let Some(id) = id_in(p.locals.as_slice(), number) else {
            return Err(BuildRefusal::Memory);
        };
        b.put(op::STORE, &[id, v])
    }

    /// A declaration sets its variable.
    #[tactic(auto, using(crate::proofs::Steps::parts_step))]
    pub(crate) fn declare(
        &self,
        b: &mut Builder,
        p: &mut FlowPlace,
        number: u32,
        init: &Option<Expr>,
    ) -> Result<(), BuildRefusal>
        ensures { Does result b.new p.new (coming.declares (setting_of self.now.lowerer.shapes.now self.now.lowerer.interfaces.now self.now.lowerer.prototypes.now) self.now.locals.now number init.now (flow_of b.old p.old)) }
    {
        let v = self.begin(b, p, number, init)?;
        self.begins_with(b, p, number, v)
    }

    /// `return`
    #[tactic(auto, using(crate::proofs::Steps::parts_step))]
    pub(crate) fn returned(
        &self,
        b: &mut Builder,
        p: &mut FlowPlace,
        e: &Option<Expr>,
    ) -> Result<(), BuildRefusal>
        ensures { Does result b.new p.new (coming.returns (setting_of self.now.lowerer.shapes.now self.now.lowerer.interfaces.now self.now.lowerer.prototypes.now) e.now (flow_of b.old p.old)) }
    {
        match e {
            None => b.put(op::RETURN, &[]),
            Some(e) => {
                let x = self.lowerer.value(b, p, e)?;
                b.put(op::RETURN_VALUE, &[x])
            }
        }
    }

    /// The test of a loop that is made before the body.
    #[tactic(auto, using(crate::proofs::Steps::parts_step))]
    pub(crate) fn test_first(
        &self,
        b: &mut Builder,
        p: &mut FlowPlace,
        test_last: bool,
        test: &Option<Expr>,
        l: LoopLabels,
    ) -> Result<(), BuildRefusal>
        ensures { Does result b.new p.new (coming.tests_first (setting_of self.now.lowerer.shapes.now self.now.lowerer.interfaces.now self.now.lowerer.prototypes.now) test_last test.now l (flow_of b.old p.old)) }
    {
        if test_last {
            return Ok(());
        }
        match test {
            None => Ok(()),
            Some(e) => {
                let x = self.lowerer.value(b, p, e)?;
                enter_body(b, p, l, x)
            }
        }
    }

    /// The step of a loop.
    #[tactic(auto, using(crate::proofs::Steps::parts_step))]
    pub(crate) fn step(
        &self,
        b: &mut Builder,
        p: &mut FlowPlace,
        step: &Option<Expr>,
    ) -> Result<(), BuildRefusal>
        ensures { Does result b.new p.new (coming.steps (setting_of self.now.lowerer.shapes.now self.now.lowerer.interfaces.now self.now.lowerer.prototypes.now) step.now (flow_of b.old p.old)) }
    {
        match step {
            None => Ok(()),
            Some(e) => {
                self.lowerer.value(b, p, e)?;
                Ok(())
            }
        }
    }

    /// A loop goes on, or its test behind the step decides.
    #[tactic(auto, using(crate::proofs::Steps::parts_step))]
    pub(crate) fn test_last(
        &self,
        b: &mut Builder,
        p: &mut FlowPlace,
        test_last: bool,
        test: &Option<Expr>,
        l: LoopLabels,
    ) -> Result<(), BuildRefusal>
        ensures { Does result b.new p.new (coming.tests_last (setting_of self.now.lowerer.shapes.now self.now.lowerer.interfaces.now self.now.lowerer.prototypes.now) test_last test.now l (flow_of b.old p.old)) }
    {
        if !test_last {
            return branch(b, p, l.head);
        }
        match test {
            None => branch(b, p, l.head),
            Some(e) => {
                let x = self.lowerer.value(b, p, e)?;
                again_if(b, p, l, x)
            }
        }
    }
}

ghost use Rattle.std.specs.Prelude.{slice_index_or};
ghost use Rattle.gsl_types.specs.declared.ty.Ty.TheVariants.{Void};
ghost use Rattle.gsl_lower_expr.specs.Calls as calls;
