//! The calls in trees, with their places.

ghost use Rattle.std.specs.Prelude.{◌≡◌, OnOk};
ghost use Rattle.gsl_link_calls.specs.Gathering.{in_turn};
ghost use Rattle.gsl_link_calls.specs.Gathering as spec;

use crate::call::{Call, Calls};
use gsl_base::{Memory, Place};
use gsl_tree::{Arm, Arms, Expr, ExprKind, Exprs, Stmt, Stmts};

/// Puts the calls of an expression behind a list.
#[cycle(gather_calls)]
#[tactic(auto, using(crate::proofs::Steps::gather_step))]
pub(crate) fn gathered(e: &Expr, calls: &mut Calls) -> Result<(), Memory>
    ensures { OnOk result (calls.new ≡ spec.gathered calls.old e.now) }
{
    kind_gathered(e.place, &e.kind, calls)?;
    Ok(())
}

#[cycle(gather_calls)]
#[tactic(auto, using(crate::proofs::Steps::gather_step))]
fn kind_gathered(place: Place, kind: &ExprKind, calls: &mut Calls) -> Result<(), Memory>
    ensures { OnOk result (calls.new ≡ spec.kind_gathered calls.old place kind.now) }
{
    match kind {
        ExprKind::Const(_)
        | ExprKind::Local(_)
        | ExprKind::Global(_)
        | ExprKind::Param(_)
        | ExprKind::BlockMember(_, _)
        | ExprKind::Stage(_)
        | ExprKind::Interface(_) => Ok(()),
        ExprKind::Member(a, _)
        | ExprKind::Swizzle(a, _)
        | ExprKind::Length(a)
        | ExprKind::Unary(_, a)
        | ExprKind::Step(_, a)
        | ExprKind::Convert(a) => {
            gathered(a.get(), calls)?;
            Ok(())
        }
        ExprKind::Index(a, b)
        | ExprKind::Binary(_, a, b)
        | ExprKind::Logic(_, a, b)
        | ExprKind::Assign(a, b)
        | ExprKind::Update(_, a, b) => {
            gathered(a.get(), calls)?;
            gathered(b.get(), calls)?;
            Ok(())
        }
        ExprKind::Choose(test, a, b) => {
            gathered(test.get(), calls)?;
            gathered(a.get(), calls)?;
            gathered(b.get(), calls)?;
            Ok(())
        }
        ExprKind::Call(number, args) => {
            calls.push(Call {
                head: *number,
                place,
            })?;
            all_gathered(args, calls)?;
            Ok(())
        }
        ExprKind::Built(_, args) | ExprKind::Build(args) | ExprKind::Comma(args) => {
            all_gathered(args, calls)?;
            Ok(())
        }
    }
}

#[cycle(gather_calls)]
fn all_gathered(es: &Exprs, calls: &mut Calls) -> Result<(), Memory>
    ensures { OnOk result (calls.new ≡ in_turn spec.gathered calls.old es.now) }
{
    for k in 0..es.len() {
        gathered(&es[k], calls)?;
    }
    Ok(())
}

/// Puts the calls of an expression behind a list, if there is one.
#[tactic(auto, using(crate::proofs::Steps::any_step))]
pub(crate) fn any_gathered(e: &Option<Expr>, calls: &mut Calls) -> Result<(), Memory>
    ensures { OnOk result (calls.new ≡ spec.any_gathered calls.old e.now) }
{
    match e {
        Some(e) => {
            gathered(e, calls)?;
            Ok(())
        }
        None => Ok(()),
    }
}

/// Puts the calls of a statement behind a list.
#[cycle(gather_calls_stmt)]
#[tactic(auto, using(crate::proofs::Steps::stmt_step))]
fn stmt_gathered(s: &Stmt, calls: &mut Calls) -> Result<(), Memory>
    ensures { OnOk result (calls.new ≡ spec.stmt_gathered calls.old s.now) }
{
    match s {
        Stmt::Empty | Stmt::Break | Stmt::Continue | Stmt::Discard => Ok(()),
        Stmt::Eval(e) => {
            gathered(e, calls)?;
            Ok(())
        }
        Stmt::Declare(_, e) | Stmt::Return(e) => {
            any_gathered(e, calls)?;
            Ok(())
        }
        Stmt::Group(stmts) => {
            stmts_gathered(stmts, calls)?;
            Ok(())
        }
        Stmt::If(test, first, other) => {
            gathered(test, calls)?;
            stmt_gathered(first.get(), calls)?;
            match other {
                Some(other) => {
                    stmt_gathered(other.get(), calls)?;
                    Ok(())
                }
                None => Ok(()),
            }
        }
        Stmt::Loop {
            test,
            step,
            body,
            ..
        } => {
            any_gathered(test, calls)?;
            any_gathered(step, calls)?;
            stmt_gathered(body.get(), calls)?;
            Ok(())
        }
        Stmt::Switch(selector, arms) => {
            gathered(selector, calls)?;
            arms_gathered(arms, calls)?;
            Ok(())
        }
    }
}

/// Puts the calls of an arm behind a list.
#[cycle(gather_calls_stmt)]
#[tactic(auto, using(crate::proofs::Steps::arm_opens))]
fn arm_gathered(arm: &Arm, calls: &mut Calls) -> Result<(), Memory>
    ensures { OnOk result (calls.new ≡ spec.arm_gathered calls.old arm.now) }
{
    stmts_gathered(&arm.body, calls)?;
    Ok(())
}

#[cycle(gather_calls_stmt)]
pub(crate) fn stmts_gathered(stmts: &Stmts, calls: &mut Calls) -> Result<(), Memory>
    ensures { OnOk result (calls.new ≡ in_turn spec.stmt_gathered calls.old stmts.now) }
{
    for k in 0..stmts.len() {
        stmt_gathered(&stmts[k], calls)?;
    }
    Ok(())
}

#[cycle(gather_calls_stmt)]
fn arms_gathered(arms: &Arms, calls: &mut Calls) -> Result<(), Memory>
    ensures { OnOk result (calls.new ≡ in_turn spec.arm_gathered calls.old arms.now) }
{
    for k in 0..arms.len() {
        arm_gathered(&arms[k], calls)?;
    }
    Ok(())
}
