//! Typed statements by the new numbers of what they name.

ghost use Rattle.std.specs.Prelude.{◌≡◌, IfOk, map};
ghost use Rattle.std.specs.Option.{option_map};
ghost use Rattle.gsl_tree.specs.declared.stmt.Arm.{Arm as A};
ghost use Rattle.gsl_tree.specs.declared.stmt.Stmt.{Stmt as S};
ghost use Rattle.gsl_tree.specs.declared.stmt.Stmt.TheFolds.{fold-Arm};
ghost use Rattle.gsl_tree.specs.declared.stmt.Stmt.TheVariants as stmt;
ghost use Rattle.gsl_link_whole.specs.Renumbering as spec;

use crate::exprs::renumbered_expr;
use crate::table::Numbering;
use gsl_base::{Boxed, List, Memory};
use gsl_tree::{Arm, Arms, Expr, Stmt, Stmts};
use std::alloc::Global;

/// An expression that may be left out.
pub fn optional(alloc: Global, n: &Numbering, e: &Option<Expr>) -> Result<Option<Expr>, Memory>
    ensures { IfOk result (λ x. x ≡ option_map (spec.renumbered_expr n.now) e.now) }
{
    match e {
        None => Ok(None),
        Some(e) => {
            let e = renumbered_expr(alloc, n, e)?;
            Ok(Some(e))
        }
    }
}

/// An `if` whose branches have their new numbers.
fn if_with(
    alloc: Global,
    n: &Numbering,
    test: &Expr,
    first: Boxed<Stmt>,
    other: Option<Boxed<Stmt>>,
) -> Result<Stmt, Memory>
    ensures { IfOk result (λ s. s ≡ stmt.If (spec.renumbered_expr n.now test.now) first other) }
{
    let test = renumbered_expr(alloc, n, test)?;
    Ok(Stmt::If(test, first, other))
}

/// The test and the step of a loop.
fn turns(
    alloc: Global,
    n: &Numbering,
    test: &Option<Expr>,
    step: &Option<Expr>,
) -> Result<(Option<Expr>, Option<Expr>), Memory>
    ensures { IfOk result (λ t. t ≡ (option_map (spec.renumbered_expr n.now) test.now, option_map (spec.renumbered_expr n.now) step.now)) }
{
    let test = optional(alloc, n, test)?;
    let step = optional(alloc, n, step)?;
    Ok((test, step))
}

/// A loop whose body has its new numbers.
fn loop_with(
    alloc: Global,
    n: &Numbering,
    test: &Option<Expr>,
    step: &Option<Expr>,
    body: Boxed<Stmt>,
    test_last: bool,
) -> Result<Stmt, Memory>
    ensures { IfOk result (λ s. s ≡ stmt.Loop (option_map (spec.renumbered_expr n.now) test.now) (option_map (spec.renumbered_expr n.now) step.now) body test_last) }
{
    let (test, step) = turns(alloc, n, test, step)?;
    Ok(Stmt::Loop {
        test,
        step,
        body,
        test_last,
    })
}

/// A `switch` whose arms have their new numbers.
fn switch_with(alloc: Global, n: &Numbering, selector: &Expr, arms: Arms) -> Result<Stmt, Memory>
    ensures { IfOk result (λ s. s ≡ stmt.Switch (spec.renumbered_expr n.now selector.now) arms) }
{
    let selector = renumbered_expr(alloc, n, selector)?;
    Ok(Stmt::Switch(selector, arms))
}

/// A statement of a unit, by the new numbers.
#[cycle(stmts)]
pub fn renumbered_stmt(alloc: Global, n: &Numbering, s: &Stmt) -> Result<Stmt, Memory>
    ensures { IfOk result (λ x. x ≡ spec.renumbered_stmt n.now s.now) }
{
    match s {
        Stmt::Empty => Ok(Stmt::Empty),
        Stmt::Break => Ok(Stmt::Break),
        Stmt::Continue => Ok(Stmt::Continue),
        Stmt::Discard => Ok(Stmt::Discard),
        Stmt::Eval(e) => {
            let e = renumbered_expr(alloc, n, e)?;
            Ok(Stmt::Eval(e))
        }
        Stmt::Declare(number, init) => {
            let init = optional(alloc, n, init)?;
            Ok(Stmt::Declare(*number, init))
        }
        Stmt::Return(value) => {
            let value = optional(alloc, n, value)?;
            Ok(Stmt::Return(value))
        }
        other => nested(alloc, n, other),
    }
}

/// A statement with statements in it.
#[cycle(stmts)]
fn nested(alloc: Global, n: &Numbering, s: &Stmt) -> Result<Stmt, Memory>
    ensures { IfOk result (λ x. x ≡ spec.renumbered_stmt n.now s.now) }
{
    match s {
        Stmt::Group(stmts) => {
            let stmts = each(alloc, n, stmts.as_slice())?;
            Ok(Stmt::Group(stmts))
        }
        Stmt::If(test, first, other) => {
            let first = boxed(alloc, n, first.get())?;
            let other = branch(alloc, n, other)?;
            if_with(alloc, n, test, first, other)
        }
        Stmt::Loop {
            test,
            step,
            body,
            test_last,
        } => {
            let body = boxed(alloc, n, body.get())?;
            loop_with(alloc, n, test, step, body, *test_last)
        }
        Stmt::Switch(selector, arms) => {
            let arms = each_arm(alloc, n, arms.as_slice())?;
            switch_with(alloc, n, selector, arms)
        }
        // No form is left.
        _ => Err(Memory),
    }
}

/// A statement in another.
#[cycle(stmts)]
fn boxed(alloc: Global, n: &Numbering, s: &Stmt) -> Result<Boxed<Stmt>, Memory>
    ensures { IfOk result (λ x. x ≡ spec.renumbered_stmt n.now s.now) }
{
    let s = renumbered_stmt(alloc, n, s)?;
    let s = Boxed::new(alloc, s)?;
    Ok(s)
}

/// A statement behind `else`, if there is one.
#[cycle(stmts)]
fn branch(
    alloc: Global,
    n: &Numbering,
    s: &Option<Boxed<Stmt>>,
) -> Result<Option<Boxed<Stmt>>, Memory>
    ensures { IfOk result (λ x. x ≡ option_map (spec.renumbered_stmt n.now) s.now) }
{
    match s {
        None => Ok(None),
        Some(s) => {
            let s = boxed(alloc, n, s.get())?;
            Ok(Some(s))
        }
    }
}

/// Statements in their order.
#[cycle(stmts)]
pub fn each(alloc: Global, n: &Numbering, stmts: &[Stmt]) -> Result<Stmts, Memory>
    ensures { IfOk result (λ xs. xs ≡ map (spec.renumbered_stmt n.now) stmts.now) }
{
    let mut all = List::new(alloc);
    for k in 0..stmts.len() {
        let s = renumbered_stmt(alloc, n, &stmts[k])?;
        all.push(s)?;
    }
    Ok(all)
}

/// An arm of a `switch`.
#[cycle(stmts)]
fn renumbered_arm(alloc: Global, n: &Numbering, arm: &Arm) -> Result<Arm, Memory>
    ensures { IfOk result (λ x. x ≡ fold-Arm S A (spec.renumbered_form n.now) spec.renumbered_arm arm.now) }
{
    let body = each(alloc, n, arm.body.as_slice())?;
    let labels = List::from_slice(alloc, arm.labels.as_slice())?;
    Ok(Arm {
        labels,
        is_default: arm.is_default,
        body,
    })
}

/// Arms in their order.
#[cycle(stmts)]
fn each_arm(alloc: Global, n: &Numbering, arms: &[Arm]) -> Result<Arms, Memory>
    ensures { IfOk result (λ xs. xs ≡ map (fold-Arm S A (spec.renumbered_form n.now) spec.renumbered_arm) arms.now) }
{
    let mut all = List::new(alloc);
    for k in 0..arms.len() {
        let arm = renumbered_arm(alloc, n, &arms[k])?;
        all.push(arm)?;
    }
    Ok(all)
}
