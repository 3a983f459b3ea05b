//! What stands before and behind the parts of statements.

ghost use Rattle.std.specs.Prelude.{◌≡◌, ◌∷◌, [], OnOk, Option, None, Some, Ok, true, false};
ghost use Rattle.gsl_base.specs.Checked.{Gives, GivesBy};
ghost use Rattle.gsl_tree.specs.declared.stmt.Stmt.TheVariants.{Loop as loop_as};
ghost use Rattle.gsl_check_decl.specs.Steps as steps;
ghost use Rattle.gsl_check_stmt.specs.Rules as rules;
ghost use Rattle.gsl_check_stmt.specs.Statements as spec;

use crate::rules::{alone, condition_fault};
use gsl_base::{Boxed, Code, Memory, Place, Refusal};
use gsl_check_decl::SoundEnv;
use gsl_check_expr::{expression, taken_expression};
use gsl_syntax::Expr as Phrase;
use gsl_tree::{Expr, Stmt};
use gsl_typing::refuse;
use std::alloc::Global;
use std::marker::Model;

/// A condition: its expression, and its fault if it has one. Contracts see the pair.
#[derive(Drop)]
pub struct Test {
    expr: Expr,
    wrong: Option<Code>,
}

impl Model for Test {
    ghost use Rattle.std.specs.Prelude.{Option};
    ghost use Rattle.gsl_base.specs.declared.fault.Code.{Code as OneCode};
    ghost use Rattle.gsl_tree.specs.declared.expr.Expr.{Expr as OneExpr};
    ghost use Rattle.std.specs.Coded.{codes};
    ghost use Rattle.gsl_tree.specs.contracts.expr.Expr as expr_row;

    ghost Value = { OneExpr × Option OneCode };

    ghost coded = { Prim.hlevel (codes, expr_row.the_row.coded) };

    ghost view = { λ test. (test.expr, test.wrong) };
}

/// The header of a loop: what stands first, the test, and the step. Contracts see the triple.
#[derive(Drop)]
pub struct Head {
    pub first: Option<Stmt>,
    pub test: Option<Test>,
    pub step: Option<Expr>,
}

impl Model for Head {
    ghost use Rattle.std.specs.Prelude.{Option};
    ghost use Rattle.gsl_base.specs.declared.fault.Code.{Code as OneCode};
    ghost use Rattle.gsl_tree.specs.declared.expr.Expr.{Expr as OneExpr};
    ghost use Rattle.gsl_tree.specs.declared.stmt.Stmt.{Stmt as OneStmt};
    ghost use Rattle.std.specs.Coded.{codes};
    ghost use Rattle.gsl_tree.specs.contracts.expr.Expr as expr_row;
    ghost use Rattle.gsl_tree.specs.contracts.stmt.Stmt as stmt_row;

    ghost Value = { Option OneStmt × Option (OneExpr × Option OneCode) × Option OneExpr };

    ghost coded = { Prim.hlevel (codes, expr_row.the_row.coded, stmt_row.the_row.coded) };

    ghost view = { λ head. (head.first, head.test, head.step) };
}

/// An expression that stands alone.
#[tactic(auto, unfolding(crate::specs::Statements::eval))]
pub fn eval(alloc: Global, env: &SoundEnv, e: &Phrase) -> Result<Expr, Refusal>
    ensures { Gives result (spec.eval e.now env.now) }
{
    let env = env.get();
    let x = expression(alloc, env, e)?;
    Ok(alone(&env.scene, x)?.expr)
}

/// A condition.
#[tactic(auto, unfolding(crate::specs::Statements::tested))]
pub fn tested(alloc: Global, env: &SoundEnv, e: &Phrase) -> Result<Test, Refusal>
    ensures { Gives result (spec.tested e.now env.now) }
{
    let env = env.get();
    let x = taken_expression(alloc, env, e)?;
    let wrong = condition_fault(&env.scene, &x);
    Ok(Test {
        expr: x.expr,
        wrong,
    })
}

/// A condition that may be missing.
#[tactic(auto, unfolding(crate::specs::Statements::tested_if))]
pub fn tested_if(alloc: Global, env: &SoundEnv, e: &Option<Phrase>) -> Result<Option<Test>, Refusal>
    ensures { Gives result (spec.tested_if e.now env.now) }
{
    match e {
        None => Ok(None),
        Some(e) => Ok(Some(tested(alloc, env, e)?)),
    }
}

// ---- headers of loops

/// The header of a `while`, in a scope of its own.
#[tactic(auto, unfolding(crate::specs::Statements::while_head))]
pub fn while_head(alloc: Global, env: &mut SoundEnv, test: &Phrase) -> Result<Head, Refusal>
    ensures { GivesBy (λ (head : spec.Parts). (head.0, head.1, head.2, env.new)) result (spec.while_head test.now env.old) }
{
    env.open(alloc)?;
    let test = tested(alloc, env, test)?;
    Ok(Head {
        first: None,
        test: Some(test),
        step: None,
    })
}

// ---- loops behind their parts

/// A loop whose test comes first, if it has one.
#[tactic(auto, unfolding(crate::specs::Statements::loop_of))]
pub fn loop_of(
    place: Place,
    test: Option<Test>,
    step: Option<Expr>,
    body: Boxed<Stmt>,
) -> Result<Stmt, Refusal>
    ensures { Gives result (spec.loop_of place test step body) }
{
    match test {
        None => Ok(first_tested(None, step, body)),
        Some(test) => tested_loop(place, test, step, body),
    }
}

/// A loop whose test comes first.
fn tested_loop(
    place: Place,
    test: Test,
    step: Option<Expr>,
    body: Boxed<Stmt>,
) -> Result<Stmt, Refusal>
    ensures { Gives result (rules.unless_wrong place test.1 (Ok (loop_as (Some test.0) step body false))) }
{
    let Test { expr, wrong } = test;
    match wrong {
        Some(code) => Err(refuse(place, code)),
        None => Ok(first_tested(Some(expr), step, body)),
    }
}

fn first_tested(test: Option<Expr>, step: Option<Expr>, body: Boxed<Stmt>) -> Stmt
    ensures { result ≡ loop_as test step body false }
{
    Stmt::Loop {
        test,
        step,
        body,
        test_last: false,
    }
}

/// A loop whose test comes last.
fn last_tested(place: Place, test: Test, body: Boxed<Stmt>) -> Result<Stmt, Refusal>
    ensures { Gives result (rules.unless_wrong place test.1 (Ok (loop_as (Some test.0) None body true))) }
{
    let Test { expr, wrong } = test;
    match wrong {
        Some(code) => Err(refuse(place, code)),
        None => Ok(Stmt::Loop {
            test: Some(expr),
            step: None,
            body,
            test_last: true,
        }),
    }
}

/// A loop whose test comes last, behind its body.
#[tactic(auto, unfolding(crate::specs::Statements::behind_body))]
pub fn behind_body(
    alloc: Global,
    env: &SoundEnv,
    place: Place,
    test: &Phrase,
    body: Boxed<Stmt>,
) -> Result<Stmt, Refusal>
    ensures { GivesBy (λ s. (s, env.now)) result (spec.behind_body place test.now body env.now) }
{
    let test = tested(alloc, env, test)?;
    Ok(last_tested(place, test, body)?)
}

// ---- branches

/// The condition of an `if`, and the scope of what stands behind it.
#[tactic(auto, unfolding(crate::specs::Statements::if_head))]
pub fn if_head(alloc: Global, env: &mut SoundEnv, test: &Phrase) -> Result<Test, Refusal>
    ensures { GivesBy (λ (t : spec.Test). (t, env.new)) result (spec.if_head test.now env.old) }
{
    let test = tested(alloc, env, test)?;
    env.open(alloc)?;
    Ok(test)
}

/// From the scope of one part to that of the next.
pub fn between(alloc: Global, env: &mut SoundEnv) -> Result<(), Memory>
    ensures { OnOk result (env.new ≡ steps.opened (steps.closed env.old)) }
{
    env.close(alloc);
    env.open(alloc)
}

/// An `if` behind its parts, of which the last had a scope of its own.
#[tactic(auto, unfolding(crate::specs::Statements::if_done))]
pub fn if_done(
    alloc: Global,
    env: &mut SoundEnv,
    place: Place,
    test: Test,
    body: Boxed<Stmt>,
    other: Option<Boxed<Stmt>>,
) -> Result<Stmt, Refusal>
    ensures { GivesBy (λ s. (s, env.new)) result (spec.if_done place test body other env.old) }
{
    env.close(alloc);
    let Test { expr, wrong } = test;
    match wrong {
        Some(code) => Err(refuse(place, code)),
        None => Ok(Stmt::If(expr, body, other)),
    }
}
