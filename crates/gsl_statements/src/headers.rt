//! The header of a `for`, and loops behind their headers.

ghost use Rattle.std.specs.Prelude.{◌≡◌, IfOk, ◌∷◌, []};
ghost use Rattle.gsl_base.specs.Checked.{Gives, GivesBy};
ghost use Rattle.gsl_check_stmt.specs.Statements as spec;

use gsl_base::{Boxed, List, Memory, Place, Refusal};
use gsl_check_decl::{SoundEnv, declaration};
use gsl_check_stmt::{Head, eval, loop_of, tested_if};
use gsl_syntax::{Expr as Phrase, ForInit};
use gsl_tree::{Expr, Stmt, Stmts};
use std::alloc::Global;

/// What stands first in the header of a `for`.
#[tactic(auto, unfolding(gsl_check_stmt::specs::Statements::header))]
fn header(alloc: Global, env: &mut SoundEnv, init: &ForInit) -> Result<Option<Stmt>, Refusal>
    ensures { GivesBy (λ first. (first, env.new)) result (spec.header init.now env.old) }
{
    match init {
        ForInit::Empty(_) => Ok(None),
        ForInit::Expr(e) => {
            let x = eval(alloc, env, e)?;
            Ok(Some(Stmt::Eval(x)))
        }
        ForInit::Decl(d) => {
            let s = declaration(alloc, d, env)?;
            Ok(Some(s))
        }
    }
}

/// An expression that stands alone, which may be missing.
#[tactic(auto, unfolding(gsl_check_stmt::specs::Statements::eval_if))]
fn eval_if(alloc: Global, env: &SoundEnv, e: &Option<Phrase>) -> Result<Option<Expr>, Refusal>
    ensures { Gives result (spec.eval_if e.now env.now) }
{
    match e {
        None => Ok(None),
        Some(e) => Ok(Some(eval(alloc, env, e)?)),
    }
}

/// The header of a `for`, in a scope of its own.
#[tactic(auto, unfolding(gsl_check_stmt::specs::Statements::for_head))]
pub fn for_head(
    alloc: Global,
    env: &mut SoundEnv,
    init: &ForInit,
    test: &Option<Phrase>,
    step: &Option<Phrase>,
) -> Result<Head, Refusal>
    ensures { GivesBy (λ (head : spec.Parts). (head.0, head.1, head.2, env.new)) result (spec.for_head init.now test.now step.now env.old) }
{
    env.open(alloc)?;
    let first = header(alloc, env, init)?;
    let test = match tested_if(alloc, env, test) {
        Ok(test) => test,
        Err(refusal) => {
            drop(first);
            return Err(refusal);
        }
    };
    match eval_if(alloc, env, step) {
        Ok(step) => Ok(Head { first, test, step }),
        Err(refusal) => {
            drop(first);
            drop(test);
            Err(refusal)
        }
    }
}

/// A loop behind what stands first in its header.
fn behind_header(alloc: Global, first: Option<Stmt>, body: Stmt) -> Result<Stmt, Memory>
    ensures { IfOk result (λ s. s ≡ spec.behind_header first body) }
{
    match first {
        None => Ok(body),
        Some(first) => {
            let both = pair(alloc, first, body)?;
            Ok(Stmt::Group(both))
        }
    }
}

/// Two statements in a row.
fn pair(alloc: Global, first: Stmt, second: Stmt) -> Result<Stmts, Memory>
    ensures { IfOk result (λ both. both ≡ first ∷ second ∷ []) }
{
    let mut both = List::new(alloc);
    if let Err(memory) = both.push(first) {
        drop(both);
        drop(second);
        return Err(memory);
    }
    match both.push(second) {
        Ok(()) => Ok(both),
        Err(memory) => {
            drop(both);
            Err(memory)
        }
    }
}

/// A loop behind its header and its body, whose scope ends.
#[tactic(auto, unfolding(gsl_check_stmt::specs::Statements::loop_done))]
pub fn loop_done(
    alloc: Global,
    env: &mut SoundEnv,
    place: Place,
    head: Head,
    body: Boxed<Stmt>,
) -> Result<Stmt, Refusal>
    ensures { GivesBy (λ s. (s, env.new)) result (spec.loop_done place head.0 head.1 head.2 body env.old) }
{
    env.close(alloc);
    let Head { first, test, step } = head;
    match loop_of(place, test, step, body) {
        Ok(s) => Ok(behind_header(alloc, first, s)?),
        Err(refusal) => {
            drop(first);
            Err(refusal)
        }
    }
}

/// Gives up a header, part by part.
pub fn give_up(head: Head) {
    let Head { first, test, step } = head;
    drop(first);
    drop(test);
    drop(step);
}
