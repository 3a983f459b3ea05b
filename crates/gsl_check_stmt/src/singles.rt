//! Statements that have no statement as a part.

ghost use Rattle.gsl_base.specs.Checked.{GivesBy};
ghost use Rattle.gsl_check_stmt.specs.Statements as spec;

use crate::gathered::misplaced_case;
use crate::rules::returned_value;
use gsl_base::{Place, Refusal};
use gsl_check_decl::SoundEnv;
use gsl_check_expr::taken_expression;
use gsl_syntax::Expr as Phrase;
use gsl_tree::Stmt;
use gsl_types::Ty;
use std::alloc::Global;

/// `return` with a value.
#[tactic(auto, unfolding(crate::specs::Statements::return_with))]
pub fn return_with(
    alloc: Global,
    env: &SoundEnv,
    returns: &Ty,
    place: Place,
    e: &Phrase,
) -> Result<Stmt, Refusal>
    ensures { GivesBy (λ t. (t, env.now)) result (spec.return_with returns.now place e.now env.now) }
{
    let env = env.get();
    let x = taken_expression(alloc, env, e)?;
    Ok(returned_value(alloc, &env.scene, returns, place, x)?)
}

/// A `case` outside the body of a `switch`, or in a statement of it.
#[tactic(auto, unfolding(crate::specs::Statements::stray_case))]
pub fn stray_case(alloc: Global, env: &SoundEnv, place: Place, e: &Phrase) -> Result<Stmt, Refusal>
    ensures { GivesBy (λ t. (t, env.now)) result (spec.stray_case place e.now env.now) }
{
    let env = env.get();
    let x = taken_expression(alloc, env, e)?;
    Ok(misplaced_case(&env.scene, place, &x)?)
}
