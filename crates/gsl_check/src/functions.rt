//! Functions and their bodies.

ghost use Rattle.std.specs.Prelude.{◌≡◌};
ghost use Rattle.gsl_base.specs.Checked.{GivesBy};
ghost use Rattle.gsl_check_heads.specs.Heads.{head_in, left_by};
ghost use Rattle.gsl_check.specs.Functions as spec;

use gsl_base::Refusal;
use gsl_check_decl::{Outside, SoundEnv};
use gsl_check_heads::{Head, enter, header, leave};
use gsl_check_stmt::Within;
use gsl_statements::statements;
use gsl_syntax::{Body, Function as FunctionTree, Name, Stmt as Syntax};
use gsl_tree::{Function, Functions, Stmts};
use std::alloc::Global;

/// A function or a prototype. One with a body is put behind the functions before it.
#[tactic(auto, unfolding(crate::specs::Functions::function))]
pub fn function(
    alloc: Global,
    f: &FunctionTree,
    functions: &mut Functions,
    env: &mut SoundEnv,
) -> Result<(), Refusal>
    ensures { GivesBy (λ _. (functions.new, env.new)) result (spec.function f.now functions.old env.old) }
{
    let head = header(alloc, functions.as_slice(), f, env)?;
    with_body(alloc, &head, &f.name, &f.body, functions, env)
}

/// The functions with that of a body, if there is one.
fn with_body(
    alloc: Global,
    head: &Head,
    name: &Name,
    body: &Body,
    functions: &mut Functions,
    env: &mut SoundEnv,
) -> Result<(), Refusal>
    ensures { GivesBy (λ _. (functions.new, env.new)) result (spec.with_body (head_in head.now env.old) functions.old name.now body.now) }
{
    match body {
        Body::Prototype(_) => Ok(()),
        Body::Block(_, all) => {
            let next = bodied(alloc, head, name, all.as_slice(), env)?;
            functions.push(next)?;
            Ok(())
        }
    }
}

/// The function of a head and a body. What the body declares is gone behind it, but for the structs.
#[tactic(auto, using(crate::proofs::Behind::bodied_is))]
fn bodied(
    alloc: Global,
    head: &Head,
    name: &Name,
    body: &[Syntax],
    env: &mut SoundEnv,
) -> Result<Function, Refusal>
    ensures { GivesBy (λ f. (f, env.new)) result (spec.bodied (head_in head.now env.old) name.now body.now) }
{
    let outside = enter(alloc, head, env)?;
    let all = statements(alloc, env, body, &head.result, nowhere())?;
    Ok(behind_body(alloc, head, name, outside, all, env))
}

/// The function of a head and the statements of its body, whose scope ends.
fn behind_body(
    alloc: Global,
    head: &Head,
    name: &Name,
    outside: Outside,
    body: Stmts,
    env: &mut SoundEnv,
) -> Function
    ensures left { env.new ≡ left_by outside env.old }
    ensures is { result ≡ record { prototype = head.now.number; locals = env.old.scene.locals; body = body; place = name.now.place } }
{
    let locals = leave(alloc, outside, env);
    Function {
        prototype: head.number,
        locals,
        body,
        place: name.place,
    }
}

/// In no loop, no `switch` and no other statement.
fn nowhere() -> Within
    ensures { result ≡ spec.nowhere }
{
    Within {
        breaks: false,
        continues: false,
        shared: false,
    }
}
