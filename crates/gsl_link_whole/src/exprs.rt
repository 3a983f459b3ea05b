//! Typed expressions by the new numbers of what they name.

ghost use Rattle.std.specs.Prelude.{◌≡◌, IfOk, map};
ghost use Rattle.gsl_link_whole.specs.Renumbering as spec;
ghost use Rattle.gsl_link_units.specs.Types.{retyped as once};
ghost use Rattle.gsl_tree.specs.Trees.{typed};
ghost use Rattle.gsl_tree.specs.declared.expr.Expr.{Expr as E};
ghost use Rattle.gsl_tree.specs.declared.expr.ExprKind.{ExprKind as K};
ghost use Rattle.gsl_tree.specs.declared.expr.ExprKind.TheFolds.{fold-ExprKind};

use crate::table::Numbering;
use gsl_base::{Boxed, List, Memory, Place};
use gsl_compute::copy_value;
use gsl_link_units::{new_number, retyped};
use gsl_tree::{Expr, ExprKind, Exprs};
use gsl_types::Ty;
use std::alloc::Global;

/// An expression by the new numbers of its structs, whose kind has its new numbers.
fn retyped_part(
    alloc: Global,
    n: &Numbering,
    ty: &Ty,
    place: Place,
    kind: ExprKind,
) -> Result<Expr, Memory>
    ensures { IfOk result (λ e. e ≡ typed place (once n.now.structs ty.now) kind) }
{
    let ty = retyped(alloc, n.structs.as_slice(), ty)?;
    Ok(Expr { ty, place, kind })
}

/// An expression of a unit, by the new numbers.
#[cycle(exprs)]
pub fn renumbered_expr(alloc: Global, n: &Numbering, e: &Expr) -> Result<Expr, Memory>
    ensures { IfOk result (λ x. x ≡ spec.renumbered_expr n.now e.now) }
{
    let kind = name(alloc, n, &e.kind)?;
    retyped_part(alloc, n, &e.ty, e.place, kind)
}

/// A name, or another form.
#[cycle(exprs)]
fn name(alloc: Global, n: &Numbering, kind: &ExprKind) -> Result<ExprKind, Memory>
    ensures { IfOk result (λ k. k ≡ fold-ExprKind K E (spec.renumbered_kind n.now) (spec.renumbered_part n.now) kind.now) }
{
    match kind {
        ExprKind::Const(v) => {
            let v = copy_value(alloc, v)?;
            Ok(ExprKind::Const(v))
        }
        ExprKind::Local(number) => Ok(ExprKind::Local(*number)),
        ExprKind::Param(number) => Ok(ExprKind::Param(*number)),
        ExprKind::Stage(var) => Ok(ExprKind::Stage(*var)),
        ExprKind::Global(number) => Ok(ExprKind::Global(new_number(n.globals.as_slice(), *number))),
        ExprKind::Interface(number) => {
            Ok(ExprKind::Interface(new_number(n.interfaces.as_slice(), *number)))
        }
        ExprKind::BlockMember(block, member) => {
            Ok(ExprKind::BlockMember(new_number(n.blocks.as_slice(), *block), *member))
        }
        other => path(alloc, n, other),
    }
}

/// A path, or another form with parts.
#[cycle(exprs)]
fn path(alloc: Global, n: &Numbering, kind: &ExprKind) -> Result<ExprKind, Memory>
    ensures { IfOk result (λ k. k ≡ fold-ExprKind K E (spec.renumbered_kind n.now) (spec.renumbered_part n.now) kind.now) }
{
    match kind {
        ExprKind::Member(a, number) => {
            let a = part(alloc, n, a.get())?;
            Ok(ExprKind::Member(a, *number))
        }
        ExprKind::Index(a, i) => {
            let a = part(alloc, n, a.get())?;
            let i = part(alloc, n, i.get())?;
            Ok(ExprKind::Index(a, i))
        }
        ExprKind::Swizzle(a, lanes) => {
            let a = part(alloc, n, a.get())?;
            Ok(ExprKind::Swizzle(a, *lanes))
        }
        ExprKind::Length(a) => {
            let a = part(alloc, n, a.get())?;
            Ok(ExprKind::Length(a))
        }
        other => operation(alloc, n, other),
    }
}

/// An operator over its operands, or another form with parts.
#[cycle(exprs)]
fn operation(alloc: Global, n: &Numbering, kind: &ExprKind) -> Result<ExprKind, Memory>
    ensures { IfOk result (λ k. k ≡ fold-ExprKind K E (spec.renumbered_kind n.now) (spec.renumbered_part n.now) kind.now) }
{
    match kind {
        ExprKind::Unary(op, a) => {
            let a = part(alloc, n, a.get())?;
            Ok(ExprKind::Unary(*op, a))
        }
        ExprKind::Binary(op, a, b) => {
            let a = part(alloc, n, a.get())?;
            let b = part(alloc, n, b.get())?;
            Ok(ExprKind::Binary(*op, a, b))
        }
        ExprKind::Logic(op, a, b) => {
            let a = part(alloc, n, a.get())?;
            let b = part(alloc, n, b.get())?;
            Ok(ExprKind::Logic(*op, a, b))
        }
        ExprKind::Convert(a) => {
            let a = part(alloc, n, a.get())?;
            Ok(ExprKind::Convert(a))
        }
        other => update(alloc, n, other),
    }
}

/// An assignment or `?:` over its parts, or another form with parts.
#[cycle(exprs)]
fn update(alloc: Global, n: &Numbering, kind: &ExprKind) -> Result<ExprKind, Memory>
    ensures { IfOk result (λ k. k ≡ fold-ExprKind K E (spec.renumbered_kind n.now) (spec.renumbered_part n.now) kind.now) }
{
    match kind {
        ExprKind::Choose(test, a, b) => {
            let test = part(alloc, n, test.get())?;
            let a = part(alloc, n, a.get())?;
            let b = part(alloc, n, b.get())?;
            Ok(ExprKind::Choose(test, a, b))
        }
        ExprKind::Assign(a, b) => {
            let a = part(alloc, n, a.get())?;
            let b = part(alloc, n, b.get())?;
            Ok(ExprKind::Assign(a, b))
        }
        ExprKind::Update(op, a, b) => {
            let a = part(alloc, n, a.get())?;
            let b = part(alloc, n, b.get())?;
            Ok(ExprKind::Update(*op, a, b))
        }
        ExprKind::Step(op, a) => {
            let a = part(alloc, n, a.get())?;
            Ok(ExprKind::Step(*op, a))
        }
        other => row(alloc, n, other),
    }
}

/// A form with a list of parts, or one that has none.
#[cycle(exprs)]
fn row(alloc: Global, n: &Numbering, kind: &ExprKind) -> Result<ExprKind, Memory>
    ensures { IfOk result (λ k. k ≡ fold-ExprKind K E (spec.renumbered_kind n.now) (spec.renumbered_part n.now) kind.now) }
{
    match kind {
        ExprKind::Call(number, args) => {
            let args = parts(alloc, n, args.as_slice())?;
            Ok(ExprKind::Call(new_number(n.heads.as_slice(), *number), args))
        }
        ExprKind::Built(which, args) => {
            let args = parts(alloc, n, args.as_slice())?;
            Ok(ExprKind::Built(*which, args))
        }
        ExprKind::Build(args) => {
            let args = parts(alloc, n, args.as_slice())?;
            Ok(ExprKind::Build(args))
        }
        ExprKind::Comma(items) => {
            let items = parts(alloc, n, items.as_slice())?;
            Ok(ExprKind::Comma(items))
        }
        _ => Err(Memory),
    }
}

/// A part of an expression.
#[cycle(exprs)]
fn part(alloc: Global, n: &Numbering, e: &Expr) -> Result<Boxed<Expr>, Memory>
    ensures { IfOk result (λ x. x ≡ spec.renumbered_expr n.now e.now) }
{
    let e = renumbered_expr(alloc, n, e)?;
    let e = Boxed::new(alloc, e)?;
    Ok(e)
}

/// Parts of an expression.
#[cycle(exprs)]
fn parts(alloc: Global, n: &Numbering, es: &[Expr]) -> Result<Exprs, Memory>
    ensures { IfOk result (λ xs. xs ≡ map (spec.renumbered_expr n.now) es.now) }
{
    let mut all = List::new(alloc);
    for k in 0..es.len() {
        let e = renumbered_expr(alloc, n, &es[k])?;
        all.push(e)?;
    }
    Ok(all)
}
