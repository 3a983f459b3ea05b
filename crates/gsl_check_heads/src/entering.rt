//! In what bodies are checked.

ghost use Rattle.std.specs.Prelude.{◌≡◌, ◌<◌, length, OnOk, IfOk};
ghost use Rattle.gsl_check_heads.specs.Heads as spec;

use crate::parameter::{Head, Parameter};
use crate::parameters::typed_params;
use gsl_base::Memory;
use gsl_check_decl::{Outside, SoundEnv, number_behind};
use gsl_types::Types;
use std::alloc::Global;

/// Declares the name of a parameter, if it has one.
fn name_param(
    alloc: Global,
    number: usize,
    param: &Parameter,
    env: &mut SoundEnv,
) -> Result<(), Memory>
    ensures { OnOk result (env.new ≡ record env.old { names = spec.named_if param.now.name number param.now.fixed env.old.names }) }
{
    match &param.name {
        Some(name) => {
            let number = number_behind(number)?;
            env.declare_param(alloc, number, param.fixed, name)
        }
        None => Ok(()),
    }
}

/// Declares the names of parameters.
fn name_params(alloc: Global, params: &[Parameter], env: &mut SoundEnv) -> Result<(), Memory>
    ensures { OnOk result (env.new ≡ record env.old { names = spec.params_named 0 params.now env.old.names }) }
{
    for k in 0..params.len() {
        name_param(alloc, k, &params[k], env)?;
    }
    Ok(())
}

/// Opens the scope of parameters and a body. The answer is what stands around it.
#[tactic(auto, unfolding(crate::specs::Heads::entered))]
pub fn enter(alloc: Global, head: &Head, env: &mut SoundEnv) -> Result<Outside, Memory>
    ensures is { IfOk result (λ _. env.new ≡ spec.entered (spec.head_in head.now env.old)) }
    ensures outside { IfOk result (λ outside. outside ≡ record { params = env.old.scene.params; locals = env.old.scene.locals; known = env.old.scene.consts.locals }) }
    ensures scopes { IfOk result (λ _. 0 < length env.old.names) }
{
    let typed = typed_params(alloc, head.params.as_slice())?;
    env.open(alloc)?;
    name_params(alloc, head.params.as_slice(), env)?;
    Ok(env.begin_body(alloc, typed))
}

/// Ends the scope of parameters and a body. The answer has the types of the local variables of the body.
#[tactic(auto, unfolding(crate::specs::Heads::left_by))]
pub fn leave(alloc: Global, outside: Outside, env: &mut SoundEnv) -> Types
    ensures is { env.new ≡ spec.left_by outside env.old }
    ensures locals { result ≡ env.old.scene.locals }
{
    env.close(alloc);
    env.end_body(outside)
}
