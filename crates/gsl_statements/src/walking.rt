//! Statements and their parts from left to right.

ghost use Rattle.std.specs.Prelude.{◌≡◌, map};
ghost use Rattle.gsl_base.specs.Checked.{GivesBy};
ghost use Rattle.gsl_syntax.specs.declared.statement.Stmt.{Stmt as Tree};
ghost use Rattle.gsl_check_stmt.specs.Statements as spec;
ghost use Rattle.gsl_check_stmt.specs.Switches as switches;

use crate::headers::{for_head, give_up, loop_done};
use crate::singles::single;
use crate::switched::{arms, give_up_gathered, give_up_selector};
use gsl_base::{Boxed, List, Place, Refusal};
use gsl_check_decl::SoundEnv;
use gsl_check_stmt::{
    Gathered, Head, Within, behind_body, between, if_done, if_head, in_loop, in_part, in_row,
    in_switch, is_label, labelled, switch_head, while_head,
};
use gsl_syntax::{Expr as Phrase, Stmt as Syntax};
use gsl_tree::{Stmt, Stmts};
use gsl_types::Ty;
use std::alloc::Global;

/// The typed statement that a statement stands for, or its first fault. What is declared behind it is left.
#[cycle(walk)]
#[tactic(auto, using(gsl_check_stmt::proofs::Parts::steps))]
pub fn statement(
    alloc: Global,
    env: &mut SoundEnv,
    s: &Syntax,
    returns: &Ty,
    within: Within,
) -> Result<Stmt, Refusal>
    ensures { GivesBy (λ t. (t, env.new)) result (spec.statement returns.now s.now within env.old) }
{
    match s {
        Syntax::Block(_, all) => block(alloc, env, all.as_slice(), returns, within),
        Syntax::If(place, test, body) => {
            branch(alloc, env, body.get(), *place, test, returns, within)
        }
        Syntax::IfElse(_, _, _, _) => branches(alloc, env, s, returns, within),
        Syntax::Switch(place, e, all) => {
            switch(alloc, env, all.as_slice(), *place, e, returns, within)
        }
        Syntax::While(_, _, _) | Syntax::Do(_, _, _) | Syntax::For(_, _, _, _, _) => {
            repeated(alloc, env, s, returns, within)
        }
        _ => single(alloc, env, s, returns, within),
    }
}

/// A statement as a part of another one.
#[cycle(walk)]
fn part(
    alloc: Global,
    env: &mut SoundEnv,
    s: &Syntax,
    returns: &Ty,
    within: Within,
) -> Result<Boxed<Stmt>, Refusal>
    ensures { GivesBy (λ t. (t, env.new)) result (spec.statement returns.now s.now within env.old) }
{
    let t = statement(alloc, env, s, returns, within)?;
    Ok(Boxed::new(alloc, t)?)
}

/// Statements one after the other, each in the scope of those before it.
#[cycle(walk)]
pub fn statements(
    alloc: Global,
    env: &mut SoundEnv,
    all: &[Syntax],
    returns: &Ty,
    within: Within,
) -> Result<Stmts, Refusal>
    ensures { GivesBy (λ found. (found, env.new)) result (spec.statements returns.now all.now within env.old) }
{
    let mut found = List::new(alloc);
    for k in 0..all.len() {
        let one = match statement(alloc, env, &all[k], returns, within) {
            Ok(one) => one,
            Err(refusal) => {
                drop(found);
                return Err(refusal);
            }
        };
        if let Err(_) = found.push(one) {
            drop(found);
            return Err(Refusal::Memory);
        }
    }
    Ok(found)
}

/// A group, which has a scope of its own where none is open for it.
#[cycle(walk)]
#[tactic(auto, unfolding(gsl_check_stmt::specs::Statements::block))]
fn block(
    alloc: Global,
    env: &mut SoundEnv,
    all: &[Syntax],
    returns: &Ty,
    within: Within,
) -> Result<Stmt, Refusal>
    ensures { GivesBy (λ t. (t, env.new)) result (spec.block (map (λ (s : Tree). spec.statement returns.now s (spec.in_row within)) all.now) within env.old) }
{
    if within.shared {
        let done = statements(alloc, env, all, returns, in_row(within))?;
        return Ok(Stmt::Group(done));
    }
    env.open(alloc)?;
    let done = statements(alloc, env, all, returns, in_row(within))?;
    env.close(alloc);
    Ok(Stmt::Group(done))
}

/// An `if` without `else`.
#[cycle(walk)]
#[tactic(auto, unfolding(gsl_check_stmt::specs::Statements::branch))]
fn branch(
    alloc: Global,
    env: &mut SoundEnv,
    body: &Syntax,
    place: Place,
    test: &Phrase,
    returns: &Ty,
    within: Within,
) -> Result<Stmt, Refusal>
    ensures { GivesBy (λ t. (t, env.new)) result (spec.branch place test.now (spec.statement returns.now body.now) within env.old) }
{
    let test = if_head(alloc, env, test)?;
    match part(alloc, env, body, returns, in_part(within)) {
        Ok(body) => if_done(alloc, env, place, test, body, None),
        Err(refusal) => {
            drop(test);
            Err(refusal)
        }
    }
}

/// An `if` with `else`.
#[cycle(walk)]
#[tactic(auto, using(gsl_check_stmt::proofs::Parts::steps), unfolding(gsl_check_stmt::specs::Statements::branches))]
fn branches(
    alloc: Global,
    env: &mut SoundEnv,
    s: &Syntax,
    returns: &Ty,
    within: Within,
) -> Result<Stmt, Refusal>
    ensures { GivesBy (λ t. (t, env.new)) result (spec.statement returns.now s.now within env.old) }
{
    match s {
        Syntax::IfElse(place, test, body, other) => {
            let test = if_head(alloc, env, test)?;
            let body = match part(alloc, env, body.get(), returns, in_part(within)) {
                Ok(body) => body,
                Err(refusal) => {
                    drop(test);
                    return Err(refusal);
                }
            };
            if let Err(_) = between(alloc, env) {
                drop(test);
                drop(body);
                return Err(Refusal::Memory);
            }
            match part(alloc, env, other.get(), returns, in_part(within)) {
                Ok(other) => if_done(alloc, env, *place, test, body, Some(other)),
                Err(refusal) => {
                    drop(test);
                    drop(body);
                    Err(refusal)
                }
            }
        }
        // No other form comes here.
        _ => Err(Refusal::Memory),
    }
}

/// A `switch`.
#[cycle(walk)]
#[tactic(auto, unfolding(gsl_check_stmt::specs::Statements::switch))]
fn switch(
    alloc: Global,
    env: &mut SoundEnv,
    all: &[Syntax],
    place: Place,
    e: &Phrase,
    returns: &Ty,
    within: Within,
) -> Result<Stmt, Refusal>
    ensures { GivesBy (λ t. (t, env.new)) result (spec.switch place e.now (map (spec.answer returns.now) all.now) within env.old) }
{
    let selector = switch_head(alloc, env, e)?;
    match items(
        alloc,
        env,
        all,
        &selector.expr.ty,
        returns,
        in_switch(within),
    ) {
        Ok(g) => arms(alloc, env, place, selector, g),
        Err(refusal) => {
            give_up_selector(selector);
            Err(refusal)
        }
    }
}

/// The body of a `switch`, from left to right.
#[cycle(walk)]
fn items(
    alloc: Global,
    env: &mut SoundEnv,
    all: &[Syntax],
    selector: &Ty,
    returns: &Ty,
    within: Within,
) -> Result<Gathered, Refusal>
    ensures { GivesBy (λ g. (g, env.new)) result (spec.items within selector.now (map (spec.answer returns.now) all.now) switches.nothing env.old) }
{
    let mut g = Gathered::new(alloc);
    for k in 0..all.len() {
        if let Err(refusal) = item(alloc, env, &all[k], selector, returns, within, &mut g) {
            give_up_gathered(g);
            return Err(refusal);
        }
    }
    Ok(g)
}

/// A label, or a statement behind labels.
#[cycle(walk)]
#[tactic(auto, unfolding(gsl_check_stmt::specs::Statements::stated))]
fn item(
    alloc: Global,
    env: &mut SoundEnv,
    s: &Syntax,
    selector: &Ty,
    returns: &Ty,
    within: Within,
    g: &mut Gathered,
) -> Result<(), Refusal>
    ensures { GivesBy (λ _. (g.new, env.new)) result (spec.item within selector.now (spec.answer returns.now s.now) g.old env.old) }
{
    if is_label(returns, s) {
        return Ok(labelled(alloc, env, s, returns, selector, g)?);
    }
    let t = statement(alloc, env, s, returns, within)?;
    Ok(g.add_stmt(t)?)
}

/// A loop.
#[cycle(walk)]
#[tactic(auto, using(gsl_check_stmt::proofs::Parts::steps))]
fn repeated(
    alloc: Global,
    env: &mut SoundEnv,
    s: &Syntax,
    returns: &Ty,
    within: Within,
) -> Result<Stmt, Refusal>
    ensures { GivesBy (λ t. (t, env.new)) result (spec.statement returns.now s.now within env.old) }
{
    match s {
        Syntax::While(place, test, body) => {
            let head = while_head(alloc, env, test)?;
            looped(alloc, env, body.get(), *place, head, returns)
        }
        Syntax::Do(place, body, test) => do_loop(alloc, env, body.get(), *place, test, returns),
        Syntax::For(place, init, test, step, body) => {
            let head = for_head(alloc, env, init, test, step)?;
            looped(alloc, env, body.get(), *place, head, returns)
        }
        // No other form comes here.
        _ => Err(Refusal::Memory),
    }
}

/// A loop behind its header, whose scope its body shares.
#[cycle(walk)]
#[tactic(auto, unfolding(gsl_check_stmt::specs::Statements::looped))]
fn looped(
    alloc: Global,
    env: &mut SoundEnv,
    body: &Syntax,
    place: Place,
    head: Head,
    returns: &Ty,
) -> Result<Stmt, Refusal>
    ensures { GivesBy (λ t. (t, env.new)) result (spec.looped place (spec.statement returns.now body.now) (head.0, head.1, head.2, env.old)) }
{
    match part(alloc, env, body, returns, in_loop()) {
        Ok(body) => loop_done(alloc, env, place, head, body),
        Err(refusal) => {
            give_up(head);
            Err(refusal)
        }
    }
}

/// A loop whose test comes last.
#[cycle(walk)]
#[tactic(auto, unfolding(gsl_check_stmt::specs::Statements::do_loop))]
fn do_loop(
    alloc: Global,
    env: &mut SoundEnv,
    body: &Syntax,
    place: Place,
    test: &Phrase,
    returns: &Ty,
) -> Result<Stmt, Refusal>
    ensures { GivesBy (λ t. (t, env.new)) result (spec.do_loop place (spec.statement returns.now body.now) test.now env.old) }
{
    env.open(alloc)?;
    let body = part(alloc, env, body, returns, in_loop())?;
    env.close(alloc);
    behind_body(alloc, env, place, test, body)
}
