//! The weights of statements.

ghost use Rattle.std.specs.Prelude.{◌≡◌};
ghost use Rattle.gsl_types.specs.Known.{AreStructs};
ghost use Rattle.gsl_weights.specs.Telling.{in_turn};
ghost use Rattle.gsl_weights.specs.Weighing as spec;

use crate::expressions::read_weighed;
use crate::telling::{added, told};
use gsl_tree::{Arm, Arms, Expr, Stmt, Stmts};
use gsl_types::Structs;

/// A count with the weight of an expression that is read, if there is one.
#[tactic(auto, using(crate::proofs::StmtSteps::any_step))]
pub(crate) fn any_weighed(structs: &Structs, so_far: u32, e: &Option<Expr>) -> u32
    requires known { AreStructs structs.now }
    ensures { result ≡ spec.any_weighed structs.now so_far e.now }
{
    match e {
        Some(e) => read_weighed(structs, so_far, e),
        None => added(so_far, 0),
    }
}

/// A count with the weight of a statement.
#[cycle(stmt)]
#[tactic(auto, using(crate::proofs::StmtSteps::stmt_step))]
fn stmt_weighed(structs: &Structs, so_far: u32, s: &Stmt) -> u32
    requires known { AreStructs structs.now }
    ensures { result ≡ spec.stmt_weighed structs.now so_far s.now }
{
    let own = added(so_far, 1);
    match s {
        Stmt::Empty | Stmt::Break | Stmt::Continue | Stmt::Discard => own,
        Stmt::Eval(e) => read_weighed(structs, own, e),
        Stmt::Declare(_, e) | Stmt::Return(e) => any_weighed(structs, own, e),
        Stmt::Group(stmts) => {
            let all = stmts_weighed(structs, own, stmts);
            added(all, 0)
        }
        Stmt::If(test, first, other) => {
            let head = read_weighed(structs, own, test);
            let both = stmt_weighed(structs, head, first.get());
            match other {
                Some(other) => stmt_weighed(structs, both, other.get()),
                None => both,
            }
        }
        Stmt::Loop {
            test,
            step,
            body,
            ..
        } => {
            let head = any_weighed(structs, own, test);
            let both = any_weighed(structs, head, step);
            stmt_weighed(structs, both, body.get())
        }
        Stmt::Switch(selector, arms) => {
            let head = read_weighed(structs, own, selector);
            let all = arms_weighed(structs, head, arms);
            added(all, 0)
        }
    }
}

/// A count with the weight of an arm.
#[cycle(stmt)]
#[tactic(auto, using(crate::proofs::StmtSteps::arm_opens))]
fn arm_weighed(structs: &Structs, so_far: u32, arm: &Arm) -> u32
    requires known { AreStructs structs.now }
    ensures { result ≡ spec.arm_weighed structs.now so_far arm.now }
{
    let labels = added(so_far, told(arm.labels.len() as u64));
    let head = added(labels, arm.is_default as u32);
    let all = stmts_weighed(structs, head, &arm.body);
    added(all, 0)
}

#[cycle(stmt)]
pub(crate) fn stmts_weighed(structs: &Structs, so_far: u32, stmts: &Stmts) -> u32
    requires known { AreStructs structs.now }
    ensures { result ≡ in_turn (spec.stmt_weighed structs.now) so_far stmts.now }
{
    let mut total = so_far;
    for k in 0..stmts.len() {
        total = stmt_weighed(structs, total, &stmts[k]);
    }
    total
}

#[cycle(stmt)]
fn arms_weighed(structs: &Structs, so_far: u32, arms: &Arms) -> u32
    requires known { AreStructs structs.now }
    ensures { result ≡ in_turn (spec.arm_weighed structs.now) so_far arms.now }
{
    let mut total = so_far;
    for k in 0..arms.len() {
        total = arm_weighed(structs, total, &arms[k]);
    }
    total
}
