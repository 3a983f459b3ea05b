//! Statements that have no statement as a part.

ghost use Rattle.gsl_base.specs.Checked.{GivesBy};
ghost use Rattle.gsl_check_stmt.specs.Statements as spec;

use gsl_base::Refusal;
use gsl_check_decl::{SoundEnv, declaration};
use gsl_check_stmt::{
    Within, broken, continued, discarded, eval, misplaced_default, return_with, returned,
    stray_case,
};
use gsl_syntax::{Expr as Phrase, Stmt as Syntax};
use gsl_tree::Stmt;
use gsl_types::Ty;
use std::alloc::Global;

/// An expression as a statement.
#[tactic(auto, unfolding(gsl_check_stmt::specs::Statements::evaluated))]
fn evaluated(alloc: Global, env: &SoundEnv, e: &Phrase) -> Result<Stmt, Refusal>
    ensures { GivesBy (λ t. (t, env.now)) result (spec.evaluated e.now env.now) }
{
    let x = eval(alloc, env, e)?;
    Ok(Stmt::Eval(x))
}

/// A jump, or another statement without parts.
#[tactic(auto, using(gsl_check_stmt::proofs::Parts::steps))]
fn jump(
    alloc: Global,
    env: &SoundEnv,
    s: &Syntax,
    returns: &Ty,
    within: Within,
) -> Result<Stmt, Refusal>
    ensures { GivesBy (λ t. (t, env.now)) result (spec.statement returns.now s.now within env.now) }
{
    match s {
        Syntax::Break(place) => Ok(broken(within, *place)?),
        Syntax::Continue(place) => Ok(continued(within, *place)?),
        Syntax::Discard(place) => Ok(discarded(env.get().scene.stage, *place)?),
        Syntax::Return(place) => Ok(returned(returns, *place)?),
        Syntax::ReturnValue(place, e) => return_with(alloc, env, returns, *place, e),
        // No form is left.
        _ => Err(Refusal::Memory),
    }
}

/// A statement that has no statement as a part.
#[tactic(auto, using(gsl_check_stmt::proofs::Parts::steps))]
pub fn single(
    alloc: Global,
    env: &mut SoundEnv,
    s: &Syntax,
    returns: &Ty,
    within: Within,
) -> Result<Stmt, Refusal>
    ensures { GivesBy (λ t. (t, env.new)) result (spec.statement returns.now s.now within env.old) }
{
    match s {
        Syntax::Empty(_) => Ok(Stmt::Empty),
        Syntax::Decl(d) => declaration(alloc, d, env),
        Syntax::Expr(e) => evaluated(alloc, env, e),
        Syntax::Case(place, e) => stray_case(alloc, env, *place, e),
        Syntax::Default(place) => Ok(misplaced_default(*place)?),
        _ => jump(alloc, env, s, returns, within),
    }
}
