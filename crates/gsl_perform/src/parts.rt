//! What expressions are performed in, and what is done with parts that were performed.

ghost use Rattle.std.specs.Prelude.{◌≡◌, ◌==◌, ◌<◌, ◌^◌, ◌∷◌, [], if◌then◌else◌, IfOk, None, Some};
ghost use Rattle.gsl_tree.specs.declared.expr.ExprKind.{out-ExprKind};
ghost use Rattle.gsl_tree.specs.Operations as operations;
ghost use Rattle.gsl_tree.specs.Values.{word_in as word_of, zero_value};
ghost use Rattle.gsl_meaning.specs.Accesses as accesses;
ghost use Rattle.gsl_meaning.specs.Expressions as spec;
ghost use Rattle.gsl_meaning.specs.Running as running;
ghost use Rattle.gsl_perform.specs.Coming as coming;
ghost use Rattle.gsl_perform.specs.Does.{Does};

use crate::frame::Frame;
use crate::stop::Stop;
use crate::world::{Found, Passed, World};
use gsl_base::{List, Memory};
use gsl_compute::{copy_value, has_fixed_length, is_signed, length_of, step_value, word_in};
use gsl_store::{
    Access, Root, Store, binary_drawn, block_parts, builtin_drawn, parts_at, read, stored,
};
use gsl_tree::{Expr, ExprKind, Exprs, StepOp};
use gsl_types::Ty;
use gsl_values::{BinaryOp, Builtin, Value, Values};
use std::alloc::Global;

/// The part at an index, which strays where it is out of bounds.
pub(crate) fn indexed(alloc: Global, access: Access, index: u32, w: &World) -> Result<Access, Stop>
    ensures { Does result w.now (running.indexing access index w.now.store w.now.units) }
{
    if index as usize >= parts_at(alloc, &access, &w.store) {
        return Err(Stop::Strays);
    }
    Ok(access.index_of(alloc, index)?)
}

/// A value is stored, and is what is given.
pub(crate) fn storing(
    alloc: Global,
    access: &Access,
    v: Value,
    w: &mut World,
) -> Result<Value, Stop>
    ensures { Does result w.new (running.storing access.now v w.old.store w.old.units) }
{
    let given = copy_value(alloc, &v)?;
    stored(alloc, access, v, &mut w.store)?;
    Ok(given)
}

/// An operator on two values.
pub(crate) fn operated(
    alloc: Global,
    op: BinaryOp,
    signed: bool,
    x: &Value,
    y: &Value,
    w: &mut World,
) -> Result<Value, Stop>
    ensures { Does result w.new (running.drawing (operations.binary_value op signed x.now y.now) w.old.store w.old.units) }
{
    Ok(binary_drawn(alloc, op, signed, x, y, &mut w.store)?)
}

/// A built-in function on values.
pub(crate) fn built(
    alloc: Global,
    which: Builtin,
    signed: bool,
    args: &Values,
    w: &mut World,
) -> Result<Value, Stop>
    ensures { Does result w.new (running.drawing (operations.builtin_value which signed args.now) w.old.store w.old.units) }
{
    Ok(builtin_drawn(alloc, which, signed, args, &mut w.store)?)
}

/// What was found, as something that is accessed.
pub(crate) fn access_from(alloc: Global, found: Found) -> Access
    ensures { result ≡ coming.access_from found }
{
    match found {
        Found::Place(access) => access,
        Found::Value(v) => Access::whole(alloc, Root::Loose(v)),
    }
}

/// The last of some values.
#[tactic(auto, using(crate::proofs::Lasts::last_is))]
pub(crate) fn last_of(alloc: Global, values: Values) -> Value
    ensures { result ≡ spec.last_of values }
{
    let mut values = values;
    match values.pop() {
        Some(v) => v,
        None => Value::Many(List::new(alloc)),
    }
}

impl<'a> Frame<'a> {
    /// The value that an access of a type reads.
    pub(crate) fn reads(
        &self,
        alloc: Global,
        ty: &Ty,
        access: &Access,
        store: &Store,
    ) -> Result<Value, Memory>
        ensures { IfOk result (λ v. v ≡ accesses.read self.now.program.structs ty.now access.now store.now) }
    {
        read(alloc, &self.shapes, ty, access, store)
    }

    /// The value of a type whose leaves are all zero.
    pub fn zero(&self, alloc: Global, ty: &Ty) -> Result<Value, Memory>
        ensures { IfOk result (λ v. v ≡ zero_value self.now.program.structs ty.now) }
    {
        self.shapes.zero(alloc, ty)
    }

    /// The value of what was found.
    pub(crate) fn value_from(
        &self,
        alloc: Global,
        ty: &Ty,
        found: Found,
        store: &Store,
    ) -> Result<Value, Memory>
        ensures { IfOk result (λ v. v ≡ coming.valued_from self.now.program.structs ty.now found store.now) }
    {
        match found {
            Found::Place(access) => self.reads(alloc, ty, &access, store),
            Found::Value(v) => Ok(v),
        }
    }
}

/// What an access led to, and the value that it read there.
#[derive(Drop)]
pub(crate) struct Held {
    pub(crate) access: Access,
    pub(crate) value: Value,
}

/// `op=` on what was held before the right side.
#[tactic(auto, unfolding(crate::specs::Coming::updates))]
pub(crate) fn updated(
    alloc: Global,
    op: BinaryOp,
    signed: bool,
    before: Held,
    y: &Value,
    w: &mut World,
) -> Result<Value, Stop>
    ensures { Does result w.new (coming.updates before op signed y.now w.old.store w.old.units) }
{
    let Held { access, value } = before;
    let new = operated(alloc, op, signed, &value, y, w)?;
    storing(alloc, &access, new, w)
}

/// Whether the value of a step is the one before it.
fn is_postfix(op: StepOp) -> bool
    ensures { result ≡ operations.is_postfix op }
{
    match op {
        StepOp::PreUp | StepOp::PreDown => false,
        StepOp::PostUp | StepOp::PostDown => true,
    }
}

/// A step on what was held.
#[tactic(auto, unfolding(crate::specs::Coming::steps))]
pub(crate) fn stepped(alloc: Global, op: StepOp, before: Held, w: &mut World) -> Result<Value, Stop>
    ensures { Does result w.new (coming.steps before op w.old.store w.old.units) }
{
    let Held { access, value } = before;
    let new = step_value(alloc, op, &value)?;
    let new = storing(alloc, &access, new, w)?;
    if is_postfix(op) { Ok(value) } else { Ok(new) }
}

/// Whether the first of some expressions is an `int` or a vector of them.
pub(crate) fn signed_first(es: &Exprs) -> bool
    ensures { result ≡ coming.signed_first es.now }
{
    !es.is_empty() && is_signed(&es[0].ty)
}

/// Whether a test fails.
pub fn fails(v: &Value) -> bool
    ensures { result ≡ (word_of v.now == 0) }
{
    word_in(v) == 0
}

/// How many parts an expression of a kind has.
fn parts_in(alloc: Global, kind: &ExprKind, store: &Store) -> usize
    ensures { result ≡ coming.parts_from (out-ExprKind kind.now) store.now }
{
    match kind {
        ExprKind::BlockMember(block, number) => block_parts(alloc, *block, *number, store),
        _ => 0,
    }
}

/// A value that is passed alone.
pub(crate) fn given(value: Value) -> Passed
    ensures { result ≡ record { value = value; back = None } }
{
    Passed { value, back: None }
}

/// How many parts `.length()` counts.
pub(crate) fn counted(alloc: Global, e: &Expr, store: &Store) -> Result<Value, Memory>
    ensures { IfOk result (λ v. v ≡ coming.counts e.now store.now) }
{
    if has_fixed_length(&e.ty) {
        return Ok(Value::Word(length_of(&e.ty)));
    }
    let count = parts_in(alloc, &e.kind, store);
    if count > u32::MAX as usize {
        return Err(Memory);
    }
    Ok(Value::Word(count as u32))
}

impl<'a> Frame<'a> {
    /// What an access of a type leads to, with the value that it reads there.
    pub(crate) fn held(
        &self,
        alloc: Global,
        access: Access,
        ty: &Ty,
        store: &Store,
    ) -> Result<Held, Memory>
        ensures { IfOk result (λ h. h ≡ record { access = access; value = accesses.read self.now.program.structs ty.now access store.now }) }
    {
        let value = self.reads(alloc, ty, &access, store)?;
        Ok(Held { access, value })
    }

    /// What an `out` parameter begins with.
    pub(crate) fn begun(&self, alloc: Global, access: Access, ty: &Ty) -> Result<Passed, Memory>
        ensures { IfOk result (λ p. p ≡ record { value = zero_value self.now.program.structs ty.now; back = Some access }) }
    {
        let value = self.zero(alloc, ty)?;
        Ok(Passed {
            value,
            back: Some(access),
        })
    }

    /// What an `inout` parameter begins with.
    pub(crate) fn lent(
        &self,
        alloc: Global,
        access: Access,
        ty: &Ty,
        store: &Store,
    ) -> Result<Passed, Memory>
        ensures { IfOk result (λ p. p ≡ record { value = accesses.read self.now.program.structs ty.now access store.now; back = Some access }) }
    {
        let value = self.reads(alloc, ty, &access, store)?;
        Ok(Passed {
            value,
            back: Some(access),
        })
    }
}
