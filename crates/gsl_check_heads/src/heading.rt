//! The heads of functions.

ghost use Rattle.std.specs.Prelude.{◌≡◌, ◌||◌, ◌&&◌, IfOk};
ghost use Rattle.gsl_base.specs.Checked.{Gives, GivesBy};
ghost use Rattle.gsl_makers.specs.Heights.{AreHeights};
ghost use Rattle.gsl_check_heads.specs.Heads as spec;

use crate::builtin::names_function;
use crate::matching::{disagrees, has_body_of, head_number};
use crate::parameter::{Head, Parameters};
use crate::parameters::{params_in, typed_params};
use gsl_base::{Code, Memory, Refusal, Text};
use gsl_check_decl::{SoundEnv, is_high, is_reserved, is_void, may_be_had, number_behind};
use gsl_check_expr::{Env, whole_type, written_type};
use gsl_names::Entry;
use gsl_qualifiers::{Role, qualify};
use gsl_syntax::{Body, Function as FunctionTree, Name};
use gsl_tree::{Function, Params, Prototype};
use gsl_types::{Direction, Ty};
use gsl_typing::{Scene, copy, refuse};
use std::alloc::Global;

/// Whether a name stands for another thing than functions.
fn is_other(entry: Option<Entry>) -> bool
    ensures { result ≡ spec.is_other entry }
{
    match entry {
        None | Some(Entry::Function(_)) => false,
        Some(_) => true,
    }
}

/// Whether this is a `main` with a result or parameters.
#[tactic(auto, unfolding(crate::specs::Heads::is_other_main))]
fn is_other_main(name: &Text, returns: &Ty, params: &[(Direction, Ty)]) -> bool
    ensures { result ≡ spec.is_other_main name.now returns.now params.now }
{
    name.as_str() == "main" && !(is_void(returns) && params.is_empty())
}

/// Whether no function has such a result.
#[tactic(auto, unfolding(crate::specs::Heads::is_no_result))]
fn is_no_result(scene: &Scene, returns: &Ty) -> bool
    ensures { result ≡ spec.is_no_result scene.now returns.now }
{
    !(is_void(returns) || may_be_had(scene, returns))
}

/// Whether the head does not go with those before it; the first head of the function, if there is one, has this number.
fn is_against(
    env: &Env,
    functions: &[Function],
    defined: bool,
    name: &Text,
    returns: &Ty,
    params: &[(Direction, Ty)],
    number: Option<usize>,
) -> bool
    ensures { result ≡ (spec.disagrees_by returns.now params.now (spec.head_at env.now.scene.prototypes number) || (defined && spec.has_body_of functions.now number) || spec.is_other_main name.now returns.now params.now) }
{
    disagrees(env.scene.prototypes.as_slice(), number, returns, params)
        || (defined && has_body_of(functions, number))
        || is_other_main(name, returns, params)
}

/// Whether a function may be declared with a head; its first head, if there is one, has this number.
#[tactic(auto, unfolding(crate::specs::Heads::may_be_head, crate::specs::Heads::disagrees))]
pub fn may_be_head(
    env: &Env,
    functions: &[Function],
    defined: bool,
    name: &Name,
    returns: &Ty,
    params: &[(Direction, Ty)],
    number: Option<usize>,
) -> Result<(), Refusal>
    requires heights { AreHeights env.now.scene.structs env.now.heights }
    requires number { number ≡ spec.head_number name.now.text params.now env.now.scene.prototypes }
    ensures { Gives result (spec.may_be_head env.now functions.now defined name.now returns.now params.now) }
{
    if is_other(env.names.find_here(&name.text)) {
        return Err(refuse(name.place, Code::E0403));
    }
    if is_reserved(&name.text) || names_function(&name.text) {
        return Err(refuse(name.place, Code::E0404));
    }
    if is_against(env, functions, defined, &name.text, returns, params, number) {
        return Err(refuse(name.place, Code::E0405));
    }
    if is_no_result(&env.scene, returns) {
        return Err(refuse(name.place, Code::E0510));
    }
    if params.len() > 255 || is_high(env, returns) {
        return Err(refuse(name.place, Code::E0908));
    }
    Ok(())
}

/// The head of a name, a result and parameters.
fn prototype_of(
    alloc: Global,
    name: &Name,
    returns: &Ty,
    params: Params,
) -> Result<Prototype, Memory>
    ensures { IfOk result (λ p. p ≡ record { name = name.now.text; result = returns.now; params = params; place = name.now.place }) }
{
    let text = Text::from_str(alloc, name.text.as_str())?;
    let copied = copy(alloc, returns)?;
    Ok(Prototype {
        name: text,
        result: copied,
        params,
        place: name.place,
    })
}

/// Declares a head, if it is the first of its function, which has none of a number else. The answer is the number of the function.
#[tactic(auto, unfolding(crate::specs::Heads::headed))]
fn headed(
    alloc: Global,
    name: &Name,
    returns: &Ty,
    params: Params,
    number: Option<usize>,
    env: &mut SoundEnv,
) -> Result<u32, Memory>
    requires number { number ≡ spec.head_number name.now.text params env.old.scene.prototypes }
    ensures { IfOk result (λ number. spec.headed (record { name = name.now.text; result = returns.now; params = params; place = name.now.place }) env.old ≡ (number, env.new)) }
{
    match number {
        Some(number) => number_behind(number),
        None => {
            let next = prototype_of(alloc, name, returns, params)?;
            env.declare_head(alloc, next)
        }
    }
}

/// Declares a head of parameters that are known.
pub fn declared_head(
    alloc: Global,
    functions: &[Function],
    defined: bool,
    name: &Name,
    returns: Ty,
    params: Parameters,
    env: &mut SoundEnv,
) -> Result<Head, Refusal>
    ensures { GivesBy (λ head. spec.head_in head env.new) result (spec.declared_head env.old functions.now defined name.now returns params) }
{
    let typed = typed_params(alloc, params.as_slice())?;
    let first = head_number(alloc, env, &name.text, typed.as_slice())?;
    may_be_head(
        env.get(),
        functions,
        defined,
        name,
        &returns,
        typed.as_slice(),
        first,
    )?;
    let number = headed(alloc, name, &returns, typed, first, env)?;
    Ok(Head {
        number,
        result: returns,
        params,
    })
}

/// Whether a body stands behind a head.
fn is_block(body: &Body) -> bool
    ensures { result ≡ spec.is_block body.now }
{
    match body {
        Body::Prototype(_) => false,
        Body::Block(_, _) => true,
    }
}

/// Declares a head: its qualifiers, its type, its parameters, and then the function.
#[tactic(auto, unfolding(crate::specs::Heads::header))]
pub fn header(
    alloc: Global,
    functions: &[Function],
    f: &FunctionTree,
    env: &mut SoundEnv,
) -> Result<Head, Refusal>
    ensures { GivesBy (λ head. spec.head_in head env.new) result (spec.header env.old functions.now f.now) }
{
    qualify(alloc, env.get(), Role::Nothing, f.quals.as_slice())?;
    let base = written_type(alloc, env.get(), &f.ty)?;
    let returns = whole_type(base)?;
    let params = params_in(alloc, env.get(), &f.params)?;
    declared_head(
        alloc,
        functions,
        is_block(&f.body),
        &f.name,
        returns,
        params,
        env,
    )
}
