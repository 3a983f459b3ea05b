//! Calls of functions of the program: arguments that go by pointer, and what comes back.

ghost use Rattle.std.specs.Prelude.{◌≡◌, ◌∷◌, ◌<◌, IfOk, Some, length, map, slice_get};
ghost use Rattle.gsl_tree.specs.Shapes as shapes;
ghost use Rattle.gsl_tree.specs.Trees as trees;
ghost use Rattle.gsl_types.specs.declared.ty.Ty.TheViews.{out-Ty};
ghost use Rattle.gsl_lower_holders.specs.Flow.{Does, flow_of};
ghost use Rattle.gsl_lower_expr.specs.Calls as spec;

use crate::access::{copied, operand, shape_or};
use crate::lowerer::Lowerer;
use crate::rows::expr_at;
use gsl_base::{List, Memory};
use gsl_instr::op;
use gsl_lower_holders::{FlowPlace, fetch_reached, hold_reached, id_in, keep, take_back, type_id};
use gsl_lower_places::Reached;
use gsl_lower_values::{converted, give};
use gsl_spv::{BuildRefusal, Builder, PlainConst, PlainType};
use gsl_tree::{Exprs, Params};
use gsl_types::{Direction, Ty};
use gsl_typing::shape_of;
use gsl_words::Args;
use std::alloc::Global;

/// How an argument goes: the holder that it is in; and where its value goes back to, if it does, which waits where later arguments have
/// labels.
#[derive(Debug, Drop)]
pub(crate) struct Passed {
    pub(crate) pointer: u32,
    pub(crate) waits: bool,
    pub(crate) back: Option<Reached>,
}

/// Arguments in their order.
pub(crate) type Passing = List<Passed>;

/// The id of zeros of a type.
#[tactic(auto, unfolding(crate::specs::Calls::zeros))]
pub fn zeros(b: &mut Builder, p: &FlowPlace, ty: &Ty) -> Result<u32, BuildRefusal>
    ensures { Does result b.new p.now (spec.zeros ty.now (flow_of b.old p.now)) }
{
    let t = type_id(b, p, ty)?;
    b.constant(PlainConst::Null(t))
}

/// The id of the type of what a function of a result gives.
#[tactic(auto, unfolding(crate::specs::Calls::result_type))]
pub fn result_type(b: &mut Builder, p: &FlowPlace, ty: &Ty) -> Result<u32, BuildRefusal>
    ensures { Does result b.new p.now (spec.result_type ty.now (flow_of b.old p.now)) }
{
    match ty {
        Ty::Void => b.plain_type(PlainType::Void),
        other => type_id(b, p, other),
    }
}

/// An `in` argument.
#[tactic(auto, unfolding(crate::specs::Calls::going_in))]
pub(crate) fn going_in(b: &mut Builder, p: &mut FlowPlace, v: u32) -> Result<Passed, BuildRefusal>
    ensures { Does result b.new p.new (spec.going_in v (flow_of b.old p.old)) }
{
    let pointer = keep(b, p, v)?;
    Ok(Passed {
        pointer,
        waits: false,
        back: None,
    })
}

/// An argument whose value comes back.
#[tactic(auto, unfolding(crate::specs::Calls::coming_back))]
fn coming_back(
    alloc: Global,
    b: &mut Builder,
    p: &mut FlowPlace,
    waits: bool,
    r: Reached,
    v: u32,
) -> Result<Passed, BuildRefusal>
    ensures { Does result b.new p.new (spec.coming_back waits r v (flow_of b.old p.old)) }
{
    let kept = hold_reached(alloc, b, p, waits, r)?;
    let pointer = keep(b, p, v)?;
    Ok(Passed {
        pointer,
        waits,
        back: Some(kept),
    })
}

/// A parameter by its place.
pub(crate) fn param_at(params: &Params, k: usize) -> &(Direction, Ty)
    requires { k < length params.now }
    ensures { slice_get params.now k ≡ Some result.now }
{
    &params[k]
}

fn passed_at(passed: &[Passed], k: usize) -> &Passed
    requires { k < length passed.now }
    ensures { slice_get passed.now k ≡ Some result.now }
{
    &passed[k]
}

/// The pointers of arguments behind the id of a function.
fn pointers(alloc: Global, function: u32, passed: &[Passed]) -> Result<Args, Memory>
    ensures { IfOk result (λ l. l ≡ function ∷ spec.pointers passed.now) }
{
    let mut ids = List::from_slice(alloc, &[function])?;
    for k in 0..passed.len() {
        ids.push(passed[k].pointer)?;
    }
    Ok(ids)
}

impl<'a> Lowerer<'a> {
    /// An `out` argument.
    #[tactic(auto, unfolding(crate::specs::Calls::passed_out))]
    pub(crate) fn passed_out(
        &self,
        b: &mut Builder,
        p: &mut FlowPlace,
        waits: bool,
        ty: &Ty,
        arg: &Ty,
        r: Reached,
    ) -> Result<Passed, BuildRefusal>
        ensures { Does result b.new p.new (spec.passed_out self.now.shapes.now waits ty.now arg.now r (flow_of b.old p.old)) }
    {
        self.probe(b, true, arg, &r)?;
        let zero = zeros(b, p, ty)?;
        coming_back(self.alloc, b, p, waits, r, zero)
    }

    /// An `inout` argument.
    #[tactic(auto, unfolding(crate::specs::Calls::passed_both))]
    pub(crate) fn passed_both(
        &self,
        b: &mut Builder,
        p: &mut FlowPlace,
        waits: bool,
        arg: &Ty,
        r: Reached,
    ) -> Result<Passed, BuildRefusal>
        ensures { Does result b.new p.new (spec.passed_both self.now.shapes.now waits arg.now r (flow_of b.old p.old)) }
    {
        let v = self.reads(b, p, arg, &r)?;
        coming_back(self.alloc, b, p, waits, r, v)
    }

    /// A value of a parameter's type as one of the argument's.
    fn as_argument(
        &self,
        b: &mut Builder,
        p: &FlowPlace,
        ty: &Ty,
        arg: &Ty,
        v: u32,
    ) -> Result<u32, BuildRefusal>
        ensures { Does result b.new p.now (spec.as_argument arg.now (shapes.shape_of ty.now) v (flow_of b.old p.now)) }
    {
        match shape_of(ty) {
            None => Ok(v),
            Some(_) => converted(self.alloc, b, shape_or(arg).0, operand(ty, v)),
        }
    }

    /// What comes back goes to where the argument leads.
    fn back_to(
        &self,
        b: &mut Builder,
        p: &FlowPlace,
        ty: &Ty,
        arg: &Ty,
        h: u32,
        waits: bool,
        kept: Reached,
    ) -> Result<(), BuildRefusal>
        ensures { Does result b.new p.now (spec.back_to self.now.shapes.now ty.now arg.now h waits kept (flow_of b.old p.now)) }
    {
        let t = type_id(b, p, ty)?;
        let v = take_back(self.alloc, b, p, h, t)?;
        let word = self.as_argument(b, p, ty, arg, v)?;
        let r = fetch_reached(self.alloc, b, p, waits, kept)?;
        self.stores(b, p, arg, &r, word)
    }

    /// What comes back of an argument.
    #[tactic(auto, unfolding(crate::specs::Calls::back))]
    fn back(
        &self,
        b: &mut Builder,
        p: &FlowPlace,
        ty: &Ty,
        arg: &Ty,
        passed: &Passed,
    ) -> Result<(), BuildRefusal>
        ensures { Does result b.new p.now (spec.back self.now.shapes.now ty.now arg.now passed.now (flow_of b.old p.now)) }
    {
        match &passed.back {
            None => Ok(()),
            Some(kept) => {
                let kept = copied(self.alloc, kept)?;
                self.back_to(b, p, ty, arg, passed.pointer, passed.waits, kept)
            }
        }
    }

    /// What comes back of all arguments, from left to right.
    fn all_back(
        &self,
        b: &mut Builder,
        p: &FlowPlace,
        params: &Params,
        es: &Exprs,
        passed: &[Passed],
    ) -> Result<(), BuildRefusal>
        ensures { Does result b.new p.now (spec.all_back self.now.shapes.now passed.now params.now (map trees.type_of es.now) (flow_of b.old p.now)) }
    {
        for k in 0..passed.len() {
            if k >= params.len() || k >= es.len() {
                return Err(BuildRefusal::Memory);
            }
            let param = param_at(params, k);
            let e = expr_at(es, k);
            self.back(b, p, &param.1, &e.ty, passed_at(passed, k))?;
        }
        Ok(())
    }

    fn call_put(
        &self,
        b: &mut Builder,
        p: &FlowPlace,
        number: u32,
        ty: &Ty,
        passed: &[Passed],
    ) -> Result<u32, BuildRefusal>
        ensures { Does result b.new p.now (spec.called_by number ty.now passed.now (flow_of b.old p.now)) }
    {
        let Some(f) = id_in(p.functions.as_slice(), number) else {
            return Err(BuildRefusal::Memory);
        };
        let t = result_type(b, p, ty)?;
        let ids = pointers(self.alloc, f, passed)?;
        give(self.alloc, b, op::FUNCTION_CALL, ids.as_slice(), t)
    }

    /// A function on arguments that were passed, and what comes back of them.
    #[tactic(auto, unfolding(crate::specs::Calls::called_with))]
    pub(crate) fn called_with(
        &self,
        b: &mut Builder,
        p: &FlowPlace,
        number: u32,
        params: &Params,
        args: &Exprs,
        ty: &Ty,
        passed: &[Passed],
    ) -> Result<u32, BuildRefusal>
        ensures { Does result b.new p.now (spec.called_with self.now.shapes.now number params.now (map trees.type_of args.now) ty.now passed.now (flow_of b.old p.now)) }
    {
        let id = self.call_put(b, p, number, ty, passed)?;
        self.all_back(b, p, params, args, passed)?;
        Ok(id)
    }
}
