//! Rows of parts that were lowered.

ghost use Rattle.std.specs.Prelude.{◌≡◌, ◌<◌, ◌+◌, IfOk, Some, length, slice_get};
ghost use Rattle.gsl_values.specs.Vectors.{components as positions_of};
ghost use Rattle.gsl_lower_values.specs.Building as steps;
ghost use Rattle.gsl_lower_places.specs.Reached as reached;
ghost use Rattle.gsl_lower_expr.specs.Coming as coming;
ghost use Rattle.gsl_lower_holders.specs.Flow.{Does, flow_of};
ghost use Rattle.gsl_lower_expr.specs.Parts as spec;
ghost use Rattle.gsl_lower_expr.specs.Rows as rows;

use crate::access::{operand, shape_or};
use crate::lowerer::Lowerer;
use gsl_base::{List, Memory};
use gsl_instr::op;
use gsl_lower_holders::{FlowPlace, fetch, type_id};
use gsl_lower_leaves::compared_whole;
use gsl_lower_places::Reached;
use gsl_lower_traits::traits_of;
use gsl_lower_values::{Operand, binary, built, called, give};
use gsl_spv::{BuildRefusal, Builder};
use gsl_tree::{Expr, Exprs};
use gsl_types::Ty;
use gsl_typing::shape_of;
use gsl_values::{BinaryOp, Builtin, Lanes};
use gsl_words::Args;
use std::alloc::Global;

/// What a swizzle picks.
pub(crate) fn swizzled(alloc: Global, ty: &Ty, lanes: &Lanes, r: Reached) -> Result<Reached, Memory>
    ensures { IfOk result (λ x. x ≡ reached.swizzled (spec.shape_or ty.now) (positions_of lanes.now) r) }
{
    let positions = &lanes.words[..(lanes.count as usize).min(4)];
    let positions = List::from_slice(alloc, positions)?;
    r.swizzled(alloc, shape_or(ty), positions)
}

/// Whether the code of an expression has labels, as a number.
fn own_split(e: &Expr) -> Result<usize, Memory>
    ensures { IfOk result (λ n. n ≡ rows.own_split e.now) }
{
    let t = traits_of(e)?;
    if t.splits { Ok(1) } else { Ok(0) }
}

/// An expression by its place.
pub(crate) fn expr_at(es: &Exprs, k: usize) -> &Expr
    requires { k < length es.now }
    ensures { slice_get es.now k ≡ Some result.now }
{
    &es[k]
}

/// How many of some expressions have labels in their code.
pub fn count_splits(es: &Exprs) -> Result<usize, Memory>
    ensures { IfOk result (λ n. n ≡ rows.count_splits es.now) }
{
    let mut count = 0usize;
    for k in 0..es.len() {
        let own = own_split(expr_at(es, k))?;
        if count > usize::MAX - own {
            return Err(Memory);
        }
        count += own;
    }
    Ok(count)
}

/// How many are left behind one.
pub fn left_behind(left: usize, e: &Expr) -> Result<usize, Memory>
    ensures { IfOk result (λ n. n + rows.own_split e.now ≡ left) }
{
    let own = own_split(e)?;
    if own > left {
        return Err(Memory);
    }
    Ok(left - own)
}

impl<'a> Lowerer<'a> {
    /// An operator on two values.
    pub(crate) fn binary(
        &self,
        b: &mut Builder,
        which: BinaryOp,
        left: &Ty,
        right: &Ty,
        x: u32,
        y: u32,
    ) -> Result<u32, BuildRefusal>
        ensures { steps.Does result b.new (spec.binary_of self.now.shapes.now which left.now right.now x y b.old) }
    {
        match shape_of(left) {
            Some(_) => binary(self.alloc, b, which, operand(left, x), operand(right, y)),
            None => {
                let all = self.leaves(left)?;
                compared_whole(self.alloc, b, which, x, y, all.as_slice())
            }
        }
    }

    /// The values of expressions again, from what stands for them.
    fn fetches(
        &self,
        b: &mut Builder,
        p: &FlowPlace,
        es: &Exprs,
        kept: &[u32],
    ) -> Result<Args, BuildRefusal>
        ensures { Does result b.new p.now (rows.fetches_all es.now kept.now (flow_of b.old p.now)) }
    {
        let mut left = count_splits(es)?;
        let mut ids = List::new(self.alloc);
        for k in 0..es.len().min(kept.len()) {
            let e = expr_at(es, k);
            left = left_behind(left, e)?;
            ids.push(fetch(self.alloc, b, p, left > 0, &e.ty, *id_at(kept, k))?)?;
        }
        Ok(ids)
    }

    /// Values with the types of their expressions.
    fn typed(&self, es: &Exprs, ids: &[u32]) -> Result<List<Operand>, Memory>
        ensures { IfOk result (λ l. l ≡ rows.typed_all es.now ids.now) }
    {
        let mut all = List::new(self.alloc);
        for k in 0..es.len().min(ids.len()) {
            all.push(operand(&expr_at(es, k).ty, *id_at(ids, k)))?;
        }
        Ok(all)
    }

    /// A built-in function on arguments that were kept.
    pub(crate) fn called(
        &self,
        b: &mut Builder,
        p: &FlowPlace,
        which: Builtin,
        args: &Exprs,
        kept: &[u32],
    ) -> Result<u32, BuildRefusal>
        ensures { Does result b.new p.now (rows.called_with which args.now kept.now (flow_of b.old p.now)) }
    {
        let ids = self.fetches(b, p, args, kept)?;
        let operands = self.typed(args, ids.as_slice())?;
        called(self.alloc, b, which, operands.as_slice())
    }

    /// A constructor on arguments that were kept.
    pub(crate) fn constructed(
        &self,
        b: &mut Builder,
        p: &FlowPlace,
        ty: &Ty,
        args: &Exprs,
        kept: &[u32],
    ) -> Result<u32, BuildRefusal>
        ensures { Does result b.new p.now (rows.constructed_with ty.now args.now kept.now (flow_of b.old p.now)) }
    {
        let ids = self.fetches(b, p, args, kept)?;
        match shape_of(ty) {
            Some(shape) => {
                let operands = self.typed(args, ids.as_slice())?;
                built(self.alloc, b, shape, operands.as_slice())
            }
            None => {
                let t = type_id(b, p, ty)?;
                give(self.alloc, b, op::COMPOSITE_CONSTRUCT, ids.as_slice(), t)
            }
        }
    }
}

/// An id by its place.
fn id_at(ids: &[u32], k: usize) -> &u32
    requires { k < length ids.now }
    ensures { slice_get ids.now k ≡ Some result.now }
{
    &ids[k]
}
