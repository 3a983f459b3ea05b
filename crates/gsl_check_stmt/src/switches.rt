//! Labels in the body of a `switch`, and what stands before and behind it.

ghost use Rattle.std.specs.Prelude.{◌≡◌, is_some};
ghost use Rattle.gsl_base.specs.Checked.{Gives, GivesBy};
ghost use Rattle.gsl_typing.specs.declared.scene.Part.{Part as TypedPart};
ghost use Rattle.gsl_check_stmt.specs.Statements as spec;

use crate::gathered::{Gathered, case_word, default_label};
use gsl_base::{Place, Refusal};
use gsl_check_decl::SoundEnv;
use gsl_check_expr::taken_expression;
use gsl_syntax::{Expr as Phrase, Stmt as Syntax};
use gsl_types::Ty;
use gsl_typing::Part;
use std::alloc::Global;

/// Whether a statement is a label of a `switch`.
#[tactic(auto, using(crate::proofs::Parts::labels))]
pub fn is_label(_returns: &Ty, s: &Syntax) -> bool
    ensures { result ≡ is_some (spec.answer _returns.now s.now).label }
{
    match s {
        Syntax::Case(_, _) | Syntax::Default(_) => true,
        Syntax::Empty(_)
        | Syntax::Block(_, _)
        | Syntax::Decl(_)
        | Syntax::Expr(_)
        | Syntax::If(_, _, _)
        | Syntax::IfElse(_, _, _, _)
        | Syntax::Switch(_, _, _)
        | Syntax::While(_, _, _)
        | Syntax::Do(_, _, _)
        | Syntax::For(_, _, _, _, _)
        | Syntax::Break(_)
        | Syntax::Continue(_)
        | Syntax::Discard(_)
        | Syntax::Return(_)
        | Syntax::ReturnValue(_, _) => false,
    }
}

/// The word of a `case`.
fn word_of_case(
    alloc: Global,
    env: &SoundEnv,
    selector: &Ty,
    place: Place,
    e: &Phrase,
    g: &Gathered,
) -> Result<u32, Refusal>
    ensures { Gives result (spec.word_of_case selector.now place e.now g.now env.now) }
{
    let env = env.get();
    let x = taken_expression(alloc, env, e)?;
    case_word(alloc, &env.scene, selector, g, place, &x)
}

/// Adds the label of a `case`.
#[tactic(auto, unfolding(crate::specs::Statements::case_label))]
fn case_label(
    alloc: Global,
    env: &SoundEnv,
    selector: &Ty,
    place: Place,
    e: &Phrase,
    g: &mut Gathered,
) -> Result<(), Refusal>
    ensures { GivesBy (λ _. g.new) result (spec.case_label selector.now place e.now g.old env.now) }
{
    let word = word_of_case(alloc, env, selector, place, e, g)?;
    Ok(g.add_case(alloc, word)?)
}

/// Adds a label.
#[tactic(auto, using(crate::proofs::Parts::labels), unfolding(crate::specs::Statements::labelled))]
pub fn labelled(
    alloc: Global,
    env: &SoundEnv,
    s: &Syntax,
    _returns: &Ty,
    selector: &Ty,
    g: &mut Gathered,
) -> Result<(), Refusal>
    ensures { GivesBy (λ _. g.new) result (spec.labelled selector.now (spec.answer _returns.now s.now).label g.old env.now) }
{
    match s {
        Syntax::Case(place, e) => case_label(alloc, env, selector, *place, e, g),
        Syntax::Default(place) => default_label(alloc, g, *place),
        // No other statement is a label.
        _ => Err(Refusal::Memory),
    }
}

/// The selector of a `switch`, and the scope of its body.
#[tactic(auto, unfolding(crate::specs::Statements::switch_head))]
pub fn switch_head(alloc: Global, env: &mut SoundEnv, e: &Phrase) -> Result<Part, Refusal>
    ensures { GivesBy (λ (x : TypedPart). (x, env.new)) result (spec.switch_head e.now env.old) }
{
    let selector = taken_expression(alloc, env.get(), e)?;
    env.open(alloc)?;
    Ok(selector)
}
