//! Units.

ghost use Rattle.std.specs.Prelude.{◌≡◌};
ghost use Rattle.gsl_base.specs.Checked.{Gives, GivesBy};
ghost use Rattle.gsl_check.specs.Units as spec;

use crate::declarations::declaration;
use crate::functions::function;
use gsl_base::{List, Refusal, Stage};
use gsl_check_decl::SoundEnv;
use gsl_check_expr::Env;
use gsl_check_heads::begun_in;
use gsl_syntax::Global as GlobalTree;
use gsl_tree::{Functions, TypedUnit};
use std::alloc::Global;

/// The typed unit that a unit of a stage stands for, or its first fault.
#[tactic(auto, unfolding(crate::specs::Units::checked))]
pub fn check(alloc: Global, stage: Stage, unit: &[GlobalTree]) -> Result<TypedUnit, Refusal>
    ensures { Gives result (spec.checked stage unit.now) }
{
    let env = begun_in(alloc, stage)?;
    finished(alloc, unit, List::new(alloc), env)
}

/// The typed unit behind the rest of its declarations.
#[tactic(auto, unfolding(crate::specs::Units::finished))]
fn finished(
    alloc: Global,
    unit: &[GlobalTree],
    functions: Functions,
    env: SoundEnv,
) -> Result<TypedUnit, Refusal>
    ensures { Gives result (spec.finished unit.now (spec.with_functions (functions, env))) }
{
    let mut functions = functions;
    let mut env = env;
    all(alloc, unit, &mut functions, &mut env)?;
    Ok(unit_of(env, functions))
}

/// All that stands at the top of a unit, from the first to the last.
fn all(
    alloc: Global,
    unit: &[GlobalTree],
    functions: &mut Functions,
    env: &mut SoundEnv,
) -> Result<(), Refusal>
    ensures { GivesBy (λ _. spec.with_functions (functions.new, env.new)) result (spec.all unit.now (spec.with_functions (functions.old, env.old))) }
{
    for k in 0..unit.len() {
        next(alloc, &unit[k], functions, env)?;
    }
    Ok(())
}

/// What stands next at the top of a unit. A function with a body is put behind those before it.
pub fn next(
    alloc: Global,
    one: &GlobalTree,
    functions: &mut Functions,
    env: &mut SoundEnv,
) -> Result<(), Refusal>
    ensures { GivesBy (λ _. spec.with_functions (functions.new, env.new)) result (spec.next one.now (spec.with_functions (functions.old, env.old))) }
{
    match one {
        GlobalTree::Empty(_) => Ok(()),
        GlobalTree::Decl(d) => declaration(alloc, d, env),
        GlobalTree::Function(f) => function(alloc, f, functions, env),
    }
}

/// The typed unit of all that was declared.
fn unit_of(env: SoundEnv, functions: Functions) -> TypedUnit
    ensures { result ≡ spec.unit_of (spec.with_functions (functions, env)) }
{
    let Env { scene, .. } = env.into_env();
    TypedUnit {
        structs: scene.structs,
        globals: scene.globals,
        blocks: scene.blocks,
        interfaces: scene.interfaces,
        prototypes: scene.prototypes,
        functions,
        local_sizes: scene.sizes,
    }
}
