//! The heads that are called in trees.

ghost use Rattle.std.specs.Prelude.{◌≡◌, OnOk};
ghost use Rattle.gsl_link_calls.specs.Gathering.{in_turn};
ghost use Rattle.gsl_link_calls.specs.Gathering as spec;

use gsl_base::{List, Memory};
use gsl_tree::{Arm, Arms, Expr, ExprKind, Exprs, Stmt, Stmts};

/// Puts the heads that are called of an expression behind a list.
#[cycle(gather_heads)]
#[tactic(auto, using(crate::proofs::HeadSteps::gather_step))]
pub(crate) fn heads_gathered(e: &Expr, calls: &mut List<u32>) -> Result<(), Memory>
    ensures { OnOk result (calls.new ≡ spec.heads_gathered calls.old e.now) }
{
    kind_heads_gathered(&e.kind, calls)?;
    Ok(())
}

#[cycle(gather_heads)]
#[tactic(auto, using(crate::proofs::HeadSteps::gather_step))]
fn kind_heads_gathered(kind: &ExprKind, calls: &mut List<u32>) -> Result<(), Memory>
    ensures { OnOk result (calls.new ≡ spec.kind_heads_gathered calls.old kind.now) }
{
    match kind {
        ExprKind::Const(_)
        | ExprKind::Local(_)
        | ExprKind::Global(_)
        | ExprKind::Param(_)
        | ExprKind::BlockMember(_, _)
        | ExprKind::Stage(_)
        | ExprKind::Interface(_) => Ok(()),
        ExprKind::Member(a, _)
        | ExprKind::Swizzle(a, _)
        | ExprKind::Length(a)
        | ExprKind::Unary(_, a)
        | ExprKind::Step(_, a)
        | ExprKind::Convert(a) => {
            heads_gathered(a.get(), calls)?;
            Ok(())
        }
        ExprKind::Index(a, b)
        | ExprKind::Binary(_, a, b)
        | ExprKind::Logic(_, a, b)
        | ExprKind::Assign(a, b)
        | ExprKind::Update(_, a, b) => {
            heads_gathered(a.get(), calls)?;
            heads_gathered(b.get(), calls)?;
            Ok(())
        }
        ExprKind::Choose(test, a, b) => {
            heads_gathered(test.get(), calls)?;
            heads_gathered(a.get(), calls)?;
            heads_gathered(b.get(), calls)?;
            Ok(())
        }
        ExprKind::Call(number, args) => {
            all_heads_gathered(args, calls)?;
            calls.push(*number)?;
            Ok(())
        }
        ExprKind::Built(_, args) | ExprKind::Build(args) | ExprKind::Comma(args) => {
            all_heads_gathered(args, calls)?;
            Ok(())
        }
    }
}

#[cycle(gather_heads)]
fn all_heads_gathered(es: &Exprs, calls: &mut List<u32>) -> Result<(), Memory>
    ensures { OnOk result (calls.new ≡ in_turn spec.heads_gathered calls.old es.now) }
{
    for k in 0..es.len() {
        heads_gathered(&es[k], calls)?;
    }
    Ok(())
}

/// Puts the heads that are called of an expression behind a list, if there is one.
#[tactic(auto, using(crate::proofs::HeadSteps::any_step))]
pub(crate) fn any_heads_gathered(e: &Option<Expr>, calls: &mut List<u32>) -> Result<(), Memory>
    ensures { OnOk result (calls.new ≡ spec.any_heads_gathered calls.old e.now) }
{
    match e {
        Some(e) => {
            heads_gathered(e, calls)?;
            Ok(())
        }
        None => Ok(()),
    }
}

/// Puts the heads that are called of a statement behind a list.
#[cycle(gather_heads_stmt)]
#[tactic(auto, using(crate::proofs::HeadSteps::stmt_step))]
fn stmt_heads_gathered(s: &Stmt, calls: &mut List<u32>) -> Result<(), Memory>
    ensures { OnOk result (calls.new ≡ spec.stmt_heads_gathered calls.old s.now) }
{
    match s {
        Stmt::Empty | Stmt::Break | Stmt::Continue | Stmt::Discard => Ok(()),
        Stmt::Eval(e) => {
            heads_gathered(e, calls)?;
            Ok(())
        }
        Stmt::Declare(_, e) | Stmt::Return(e) => {
            any_heads_gathered(e, calls)?;
            Ok(())
        }
        Stmt::Group(stmts) => {
            stmts_heads_gathered(stmts, calls)?;
            Ok(())
        }
        Stmt::If(test, first, other) => {
            heads_gathered(test, calls)?;
            stmt_heads_gathered(first.get(), calls)?;
            match other {
                Some(other) => {
                    stmt_heads_gathered(other.get(), calls)?;
                    Ok(())
                }
                None => Ok(()),
            }
        }
        Stmt::Loop {
            test,
            step,
            body,
            ..
        } => {
            any_heads_gathered(test, calls)?;
            any_heads_gathered(step, calls)?;
            stmt_heads_gathered(body.get(), calls)?;
            Ok(())
        }
        Stmt::Switch(selector, arms) => {
            heads_gathered(selector, calls)?;
            arms_heads_gathered(arms, calls)?;
            Ok(())
        }
    }
}

/// Puts the heads that are called of an arm behind a list.
#[cycle(gather_heads_stmt)]
#[tactic(auto, using(crate::proofs::HeadSteps::arm_opens))]
fn arm_heads_gathered(arm: &Arm, calls: &mut List<u32>) -> Result<(), Memory>
    ensures { OnOk result (calls.new ≡ spec.arm_heads_gathered calls.old arm.now) }
{
    stmts_heads_gathered(&arm.body, calls)?;
    Ok(())
}

#[cycle(gather_heads_stmt)]
pub(crate) fn stmts_heads_gathered(stmts: &Stmts, calls: &mut List<u32>) -> Result<(), Memory>
    ensures { OnOk result (calls.new ≡ in_turn spec.stmt_heads_gathered calls.old stmts.now) }
{
    for k in 0..stmts.len() {
        stmt_heads_gathered(&stmts[k], calls)?;
    }
    Ok(())
}

#[cycle(gather_heads_stmt)]
fn arms_heads_gathered(arms: &Arms, calls: &mut List<u32>) -> Result<(), Memory>
    ensures { OnOk result (calls.new ≡ in_turn spec.arm_heads_gathered calls.old arms.now) }
{
    for k in 0..arms.len() {
        arm_heads_gathered(&arms[k], calls)?;
    }
    Ok(())
}
