//! Expressions and brackets: their parts from left to right, and then the node.

ghost use Rattle.std.specs.Prelude.{◌≡◌, ◌++◌, ◌∷◌, [], drop, map, IfOk};
ghost use Rattle.gsl_base.specs.Checked.{Gives};
ghost use Rattle.gsl_types.specs.Known.{AreStructs};
ghost use Rattle.gsl_makers.specs.Heights.{AreHeights};
ghost use Rattle.gsl_base.specs.declared.fault.Place.{Place};
ghost use Rattle.gsl_syntax.specs.declared.expr.Expr.{Expr as Syntax};
ghost use Rattle.gsl_tree.specs.declared.expr.ExprKind.TheVariants as kind;
ghost use Rattle.gsl_tree.specs.Trees.{place_of};
ghost use Rattle.gsl_typing.specs.Scene.{made, type_in};
ghost use Rattle.gsl_check_expr.specs.Callees as callees;
ghost use Rattle.gsl_check_expr.specs.Expressions as spec;
ghost use Rattle.gsl_check_expr.specs.Sizes as sizes;

use crate::brackets::Dimensions;
use crate::callees::{called_name, called_type};
use crate::env::Env;
use crate::naming::{instance_of, literal, named};
use crate::sizing::size_in;
use gsl_base::{Code, List, Memory, Place, Refusal};
use gsl_makers::{Parts, block_member, index, member, method};
use gsl_syntax::{Dim, Expr as Syntax, TypeSpec};
use gsl_tree::{Expr, ExprKind};
use gsl_types::Scalar;
use gsl_typing::{Part, assigned, binary, choice, comma, copy, postfix, refuse, unary, whole};
use std::alloc::Global;

/// The block of which an expression is the instance name.
#[tactic(auto, using(crate::proofs::Steps::steps))]
fn block_in(env: &Env, e: &Syntax) -> Option<u32>
    ensures { result ≡ (spec.answer env.now e.now).block }
{
    match e {
        Syntax::Name(_, name) => instance_of(env, name),
        Syntax::Signed(_, _)
        | Syntax::Unsigned(_, _)
        | Syntax::Bool(_, _)
        | Syntax::Paren(_, _)
        | Syntax::CallVoid(_)
        | Syntax::Call(_, _)
        | Syntax::Index(_, _, _)
        | Syntax::Member(_, _, _)
        | Syntax::Method(_, _, _)
        | Syntax::Postfix(_, _, _)
        | Syntax::Unary(_, _, _)
        | Syntax::Binary(_, _, _, _)
        | Syntax::Conditional(_, _, _, _)
        | Syntax::Assign(_, _, _, _)
        | Syntax::Sequence(_, _) => None,
    }
}

/// The place of a pair of brackets.
#[tactic(auto, using(crate::proofs::Steps::steps))]
fn place_in(env: &Env, dim: &Dim) -> Place
    ensures { result ≡ (spec.bracket env.now dim.now).place }
{
    match dim {
        Dim::Open(place) => *place,
        Dim::Sized(place, _) => *place,
    }
}

/// A call, once its brackets and its arguments are known.
#[tactic(auto, using(crate::proofs::Steps::steps))]
fn called(
    alloc: Global,
    env: &Env,
    callee: &TypeSpec,
    dims: &Dimensions,
    args: Parts,
) -> Result<Part, Refusal>
    requires heights { AreHeights env.now.scene.structs env.now.heights }
    ensures { Gives result (callees.called env.now (spec.callee env.now callee.now).place (spec.callee env.now callee.now).base dims.now args) }
{
    match callee {
        TypeSpec::Basic(place, basic, _) => called_type(alloc, env, *place, *basic, dims, args),
        TypeSpec::Named(place, name, _) => called_name(alloc, env, *place, name, dims, args),
    }
}

/// Expressions that commas join, the last of which is a part.
fn joined(alloc: Global, place: Place, done: List<Expr>, last: Part) -> Result<Part, Memory>
    ensures { IfOk result (λ x. x ≡ made place (type_in last) (kind.Comma (done ++ last.expr ∷ []))) }
{
    let mut items = done;
    let ty = copy(alloc, &last.expr.ty)?;
    items.push(last.expr)?;
    Ok(Part {
        expr: Expr {
            ty,
            place,
            kind: ExprKind::Comma(items),
        },
        fixed: false,
    })
}

/// The typed expression that an expression stands for, or its first fault.
#[cycle(walk)]
#[tactic(auto, using(crate::proofs::Steps::steps))]
pub fn expression(alloc: Global, env: &Env, e: &Syntax) -> Result<Part, Refusal>
    requires known { AreStructs env.now.scene.structs }
    requires heights { AreHeights env.now.scene.structs env.now.heights }
    ensures { Gives result (spec.expression env.now e.now) }
{
    match e {
        Syntax::Name(place, name) => named(alloc, env, *place, name),
        Syntax::Signed(place, word) => Ok(literal(*place, Scalar::Int, *word)),
        Syntax::Unsigned(place, word) => Ok(literal(*place, Scalar::Uint, *word)),
        Syntax::Bool(place, value) => Ok(literal(*place, Scalar::Bool, *value as u32)),
        Syntax::Paren(_, inner) => expression(alloc, env, inner.get()),
        _ => operation(alloc, env, e),
    }
}

/// An operator over its operands, or another form with parts.
#[cycle(walk)]
#[tactic(auto, using(crate::proofs::Steps::steps))]
fn operation(alloc: Global, env: &Env, e: &Syntax) -> Result<Part, Refusal>
    requires known { AreStructs env.now.scene.structs }
    requires heights { AreHeights env.now.scene.structs env.now.heights }
    ensures { Gives result (spec.expression env.now e.now) }
{
    match e {
        Syntax::Postfix(place, op, a) => {
            let x = taken_expression(alloc, env, a.get())?;
            postfix(alloc, &env.scene, *op, *place, x)
        }
        Syntax::Unary(place, op, a) => {
            let x = taken_expression(alloc, env, a.get())?;
            unary(alloc, &env.scene, *op, *place, x)
        }
        Syntax::Binary(place, op, a, b) => {
            let x = taken_expression(alloc, env, a.get())?;
            let y = taken_expression(alloc, env, b.get())?;
            binary(alloc, &env.scene, *op, *place, x, y)
        }
        _ => update(alloc, env, e),
    }
}

/// An assignment or `?:` over its parts, or another form with parts.
#[cycle(walk)]
#[tactic(auto, using(crate::proofs::Steps::steps))]
fn update(alloc: Global, env: &Env, e: &Syntax) -> Result<Part, Refusal>
    requires known { AreStructs env.now.scene.structs }
    requires heights { AreHeights env.now.scene.structs env.now.heights }
    ensures { Gives result (spec.expression env.now e.now) }
{
    match e {
        Syntax::Assign(place, op, a, b) => {
            let x = taken_expression(alloc, env, a.get())?;
            let y = taken_expression(alloc, env, b.get())?;
            assigned(alloc, &env.scene, *op, *place, x, y)
        }
        Syntax::Conditional(place, test, a, b) => {
            let t = taken_expression(alloc, env, test.get())?;
            let x = taken_expression(alloc, env, a.get())?;
            let y = taken_expression(alloc, env, b.get())?;
            choice(alloc, &env.scene, *place, t, x, y)
        }
        _ => path(alloc, env, e),
    }
}

/// An index, a member or a length over its parts, or another form with parts.
#[cycle(walk)]
#[tactic(auto, using(crate::proofs::Steps::steps))]
fn path(alloc: Global, env: &Env, e: &Syntax) -> Result<Part, Refusal>
    requires known { AreStructs env.now.scene.structs }
    requires heights { AreHeights env.now.scene.structs env.now.heights }
    ensures { Gives result (spec.expression env.now e.now) }
{
    match e {
        Syntax::Index(place, a, i) => {
            let x = expression(alloc, env, a.get())?;
            let y = taken_expression(alloc, env, i.get())?;
            index(alloc, &env.scene, *place, x, y)
        }
        Syntax::Member(place, a, name) => match block_in(env, a.get()) {
            Some(block) => block_member(alloc, &env.scene, *place, block, name),
            None => {
                let x = expression(alloc, env, a.get())?;
                member(alloc, &env.scene, *place, x, name)
            }
        },
        Syntax::Method(place, a, name) => {
            let x = expression(alloc, env, a.get())?;
            method(alloc, *place, x, name)
        }
        _ => row(alloc, env, e),
    }
}

/// A call over its brackets and arguments, or expressions that commas join.
#[cycle(walk)]
#[tactic(auto, using(crate::proofs::Steps::steps))]
fn row(alloc: Global, env: &Env, e: &Syntax) -> Result<Part, Refusal>
    requires known { AreStructs env.now.scene.structs }
    requires heights { AreHeights env.now.scene.structs env.now.heights }
    ensures { Gives result (spec.expression env.now e.now) }
{
    match e {
        Syntax::CallVoid(callee) => {
            let dims = brackets(alloc, env, callee.get())?;
            called(alloc, env, callee.get(), &dims, List::new(alloc))
        }
        Syntax::Call(callee, args) => {
            let dims = brackets(alloc, env, callee.get())?;
            let parts = in_row(alloc, env, args.as_slice())?;
            called(alloc, env, callee.get(), &dims, parts)
        }
        Syntax::Sequence(first, rest) => {
            let x = taken_expression(alloc, env, first.get())?;
            behind(alloc, env, rest.as_slice(), x)
        }
        // No form is left.
        _ => Err(Refusal::Memory),
    }
}

/// The typed expression that an expression stands for where its value is taken, or its first fault.
#[cycle(walk)]
pub fn taken_expression(alloc: Global, env: &Env, e: &Syntax) -> Result<Part, Refusal>
    requires known { AreStructs env.now.scene.structs }
    requires heights { AreHeights env.now.scene.structs env.now.heights }
    ensures { Gives result (spec.taken_expression env.now e.now) }
{
    let x = expression(alloc, env, e)?;
    whole(&env.scene, x)
}

/// Arguments from left to right.
#[cycle(walk)]
fn in_row(alloc: Global, env: &Env, es: &[Syntax]) -> Result<Parts, Refusal>
    requires known { AreStructs env.now.scene.structs }
    requires heights { AreHeights env.now.scene.structs env.now.heights }
    ensures { Gives result (spec.in_row env.now (map (spec.answer env.now) es.now)) }
{
    let mut found = List::new(alloc);
    for k in 0..es.len() {
        let x = taken_expression(alloc, env, &es[k])?;
        found.push(x)?;
    }
    Ok(found)
}

/// The size that a pair of brackets states, if it states one.
#[cycle(walk)]
#[tactic(auto, using(crate::proofs::Steps::steps))]
fn stated_size(alloc: Global, env: &Env, dim: &Dim) -> Result<Option<u32>, Refusal>
    requires known { AreStructs env.now.scene.structs }
    requires heights { AreHeights env.now.scene.structs env.now.heights }
    ensures { Gives result (spec.bracket env.now dim.now).size }
{
    match dim {
        Dim::Open(_) => Ok(None),
        Dim::Sized(place, e) => {
            let x = taken_expression(alloc, env, e.get())?;
            Ok(Some(size_in(alloc, &env.scene, *place, &x)?))
        }
    }
}

/// The sizes behind the first, which are all stated.
#[cycle(walk)]
fn all_stated(alloc: Global, env: &Env, dims: &[Dim]) -> Result<List<u32>, Refusal>
    requires known { AreStructs env.now.scene.structs }
    requires heights { AreHeights env.now.scene.structs env.now.heights }
    ensures { Gives result (sizes.all_stated (map (spec.bracket env.now) (drop 1 dims.now))) }
{
    let mut found = List::new(alloc);
    for k in 1..dims.len() {
        match stated_size(alloc, env, &dims[k])? {
            Some(size) => found.push(size)?,
            None => return Err(refuse(place_in(env, &dims[k]), Code::E0603)),
        }
    }
    Ok(found)
}

/// The sizes in brackets, only the first of which may be left out.
#[cycle(walk)]
#[tactic(auto, unfolding(crate::specs::Sizes::dimensions))]
pub fn dimensions(alloc: Global, env: &Env, dims: &[Dim]) -> Result<Dimensions, Refusal>
    requires known { AreStructs env.now.scene.structs }
    requires heights { AreHeights env.now.scene.structs env.now.heights }
    ensures { Gives result (sizes.dimensions (map (spec.bracket env.now) dims.now)) }
{
    match dims {
        [] => Ok(Dimensions::Plain),
        [first, ..] => {
            let size = stated_size(alloc, env, first)?;
            let rest = all_stated(alloc, env, dims)?;
            Ok(Dimensions::Sized(place_in(env, first), size, rest))
        }
    }
}

/// The sizes in the brackets of a type or a callee.
#[cycle(walk)]
#[tactic(auto, using(crate::proofs::Steps::steps))]
pub(crate) fn brackets(alloc: Global, env: &Env, ty: &TypeSpec) -> Result<Dimensions, Refusal>
    requires known { AreStructs env.now.scene.structs }
    requires heights { AreHeights env.now.scene.structs env.now.heights }
    ensures { Gives result (sizes.dimensions (spec.callee env.now ty.now).brackets) }
{
    match ty {
        TypeSpec::Basic(_, _, dims) => dimensions(alloc, env, dims.as_slice()),
        TypeSpec::Named(_, _, dims) => dimensions(alloc, env, dims.as_slice()),
    }
}

/// The expressions behind commas, each of which takes the one before it.
#[cycle(walk)]
fn behind(alloc: Global, env: &Env, rest: &[(Place, Syntax)], first: Part) -> Result<Part, Refusal>
    requires known { AreStructs env.now.scene.structs }
    requires heights { AreHeights env.now.scene.structs env.now.heights }
    ensures { Gives result (spec.behind env.now first (first.expr ∷ []) (place_of first.expr) (map (λ (x : Place × Syntax). (x.0, spec.answer env.now x.1)) rest.now)) }
{
    let mut done = List::new(alloc);
    let mut place = first.expr.place;
    let mut last = first;
    for k in 0..rest.len() {
        place = rest[k].0;
        let y = taken_expression(alloc, env, &rest[k].1)?;
        let z = comma(&env.scene, place, &last, y)?;
        done.push(last.expr)?;
        last = z;
    }
    Ok(joined(alloc, place, done, last)?)
}
