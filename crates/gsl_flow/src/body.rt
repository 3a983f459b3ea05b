//! What the statements of a function are performed in, and what they do with expressions alone.

ghost use Rattle.std.specs.Prelude.{◌≡◌, IfOk, slice_index_or};
ghost use Rattle.gsl_types.specs.declared.ty.Ty.TheVariants.{Void};
ghost use Rattle.gsl_tree.specs.Values.{zero_value};
ghost use Rattle.gsl_meaning.specs.Accesses.{nothing as no_value};
ghost use Rattle.gsl_perform.specs.Calling.{Calls};
ghost use Rattle.gsl_perform.specs.Does.{Does};
ghost use Rattle.gsl_perform.specs.Framed.{around};
ghost use Rattle.gsl_flow.specs.Flows.{Leaves};
ghost use Rattle.gsl_flow.specs.Performing as spec;

use crate::left::{Left, Turn};
use gsl_base::{List, Memory};
use gsl_perform::{Around, Called, Frame, Stop, World, fails};
use gsl_store::{Access, Root, stored};
use gsl_tree::Expr;
use gsl_types::{Ty, Types};
use gsl_values::{Value, Values};
use std::alloc::Global;

/// What the statements of a function are performed in: what expressions are, and the types of its local variables.
#[derive(Clone, Copy)]
pub struct Body<'a, F> {
    pub around: Around<'a, F>,
    pub locals: &'a Types,
}

/// The value of a local variable whose leaves are all zero.
fn zero_of(alloc: Global, frame: &Frame<'_>, locals: &Types, number: u32) -> Result<Value, Memory>
    ensures { IfOk result (λ v. v ≡ zero_value frame.now.program.structs (slice_index_or locals.now number Void)) }
{
    if number as usize >= locals.len() {
        return frame.zero(alloc, &Ty::Void);
    }
    frame.zero(alloc, &locals[number as usize])
}

impl<'a, F: Fn(Global, &Frame<'_>, usize, u32, Values, &mut World) -> Result<Called, Stop>> Body<
    'a,
    F,
> {
    /// Whether a test holds; none always does.
    #[tactic(auto, using(crate::proofs::Steps::parts_step))]
    pub(crate) fn test(&self, test: &Option<Expr>, w: &mut World) -> Result<bool, Stop>
        requires { Calls self.now.around.frame.now self.now.around.depth (F.pre self.now.around.call) (F.post self.now.around.call) }
        ensures { Does result w.new (spec.tests (around self.now.around.frame.now self.now.around.depth) test.now w.old.store w.old.units) }
    {
        match test {
            None => Ok(true),
            Some(e) => {
                let v = self.around.value(e, w)?;
                Ok(!fails(&v))
            }
        }
    }

    /// The step of a loop.
    #[tactic(auto, using(crate::proofs::Steps::parts_step))]
    pub(crate) fn step(&self, step: &Option<Expr>, w: &mut World) -> Result<Left, Stop>
        requires { Calls self.now.around.frame.now self.now.around.depth (F.pre self.now.around.call) (F.post self.now.around.call) }
        ensures { Leaves result w.new (spec.steps (around self.now.around.frame.now self.now.around.depth) step.now w.old.store w.old.units) }
    {
        match step {
            None => Ok(Left::Normal),
            Some(e) => {
                self.around.value(e, w)?;
                Ok(Left::Normal)
            }
        }
    }

    /// What follows the body in a turn of a loop.
    #[tactic(auto, using(crate::proofs::Loops::loops_step))]
    pub(crate) fn turn_on(
        &self,
        test: &Option<Expr>,
        step: &Option<Expr>,
        w: &mut World,
    ) -> Result<Turn, Stop>
        requires { Calls self.now.around.frame.now self.now.around.depth (F.pre self.now.around.call) (F.post self.now.around.call) }
        ensures { Does result w.new (spec.turn_on (around self.now.around.frame.now self.now.around.depth) test.now step.now w.old.store w.old.units) }
    {
        self.step(step, w)?;
        if self.test(test, w)? {
            return Ok(Turn::Again);
        }
        Ok(Turn::Over(Left::Normal))
    }

    /// The value with which a local variable begins.
    #[tactic(auto, using(crate::proofs::Steps::parts_step))]
    fn begin(&self, number: u32, init: &Option<Expr>, w: &mut World) -> Result<Value, Stop>
        requires { Calls self.now.around.frame.now self.now.around.depth (F.pre self.now.around.call) (F.post self.now.around.call) }
        ensures { Does result w.new (spec.begins (around self.now.around.frame.now self.now.around.depth) self.now.locals.now number init.now w.old.store w.old.units) }
    {
        match init {
            None => Ok(zero_of(self.around.alloc, self.around.frame, self.locals, number)?),
            Some(e) => self.around.value(e, w),
        }
    }

    /// A declaration sets its variable.
    #[tactic(auto, using(crate::proofs::Steps::parts_step))]
    pub(crate) fn declare(
        &self,
        number: u32,
        init: &Option<Expr>,
        w: &mut World,
    ) -> Result<Left, Stop>
        requires { Calls self.now.around.frame.now self.now.around.depth (F.pre self.now.around.call) (F.post self.now.around.call) }
        ensures { Leaves result w.new (spec.declares (around self.now.around.frame.now self.now.around.depth) self.now.locals.now number init.now w.old.store w.old.units) }
    {
        let v = self.begin(number, init, w)?;
        let access = Access::whole(self.around.alloc, Root::Local(number));
        stored(self.around.alloc, &access, v, &mut w.store)?;
        Ok(Left::Normal)
    }

    /// `return`
    #[tactic(auto, using(crate::proofs::Steps::parts_step))]
    pub(crate) fn returned(&self, e: &Option<Expr>, w: &mut World) -> Result<Left, Stop>
        requires { Calls self.now.around.frame.now self.now.around.depth (F.pre self.now.around.call) (F.post self.now.around.call) }
        ensures { Leaves result w.new (spec.returns (around self.now.around.frame.now self.now.around.depth) e.now w.old.store w.old.units) }
    {
        match e {
            None => Ok(Left::Returned(nothing(self.around.alloc))),
            Some(e) => {
                let v = self.around.value(e, w)?;
                Ok(Left::Returned(v))
            }
        }
    }
}

/// The value of a call that gives none.
fn nothing(alloc: Global) -> Value
    ensures { result ≡ no_value }
{
    Value::Many(List::new(alloc))
}

/// Uses a unit.
#[tactic(auto, unfolding(crate::specs::Performing::spends))]
pub fn spend(w: &mut World) -> Result<(), Stop>
    ensures { Does result w.new (spec.spends w.old.store w.old.units) }
{
    if w.units == 0 {
        return Err(Stop::Goes);
    }
    w.units -= 1;
    Ok(())
}
