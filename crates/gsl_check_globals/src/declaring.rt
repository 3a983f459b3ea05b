//! Variables of a declaration at the top of a unit.

ghost use Rattle.std.specs.Prelude.{◌≡◌, map};
ghost use Rattle.gsl_base.specs.Checked.{GivesBy};
ghost use Rattle.gsl_syntax.specs.declared.declaration.Declarator.TheVariants as declarator_of;
ghost use Rattle.gsl_check_globals.specs.Variables as spec;

use crate::interfaces::{begun_interface, interface};
use crate::variables::{begun_variable, plain_variable};
use gsl_base::Refusal;
use gsl_check_decl::{SoundEnv, declared_whole};
use gsl_check_expr::{Written, declared, initial};
use gsl_qualifiers::{Qualified, Role};
use gsl_syntax::{Declarator, Dim, Init, Name};
use gsl_types::Ty;
use gsl_typing::Part;
use std::alloc::Global;

/// A variable without an initialiser, by what is declared.
fn plain_by(
    alloc: Global,
    role: Role,
    q: &Qualified,
    name: &Name,
    ty: Ty,
    env: &mut SoundEnv,
) -> Result<(), Refusal>
    ensures { GivesBy (λ _. env.new) result (spec.plain_by role q.now name.now ty env.old) }
{
    match role {
        Role::Input => interface(alloc, false, q, name, ty, env),
        Role::Output => interface(alloc, true, q, name, ty, env),
        _ => plain_variable(alloc, q.fixed, name, ty, env),
    }
}

/// A variable that begins as a value, by what is declared.
fn begun_by(
    alloc: Global,
    role: Role,
    q: &Qualified,
    name: &Name,
    written: &Written,
    x: Part,
    env: &mut SoundEnv,
) -> Result<(), Refusal>
    ensures { GivesBy (λ _. env.new) result (spec.begun_by role q.now name.now written.now x env.old) }
{
    match role {
        Role::Input => begun_interface(alloc, env.get(), false, q, name, written, &x),
        Role::Output => begun_interface(alloc, env.get(), true, q, name, written, &x),
        _ => begun_variable(alloc, q.fixed, name, written, x, env),
    }
}

/// A variable with its brackets and its initialiser.
fn initialised(
    alloc: Global,
    role: Role,
    q: &Qualified,
    base: &Written,
    name: &Name,
    dims: &[Dim],
    init: &Init,
    env: &mut SoundEnv,
) -> Result<(), Refusal>
    ensures { GivesBy (λ _. env.new) result (spec.declarator_by role q.now base.now (declarator_of.Initialised name.now dims.now init.now) env.old) }
{
    let ty = declared(alloc, env.get(), base, dims)?;
    let x = initial(alloc, env.get(), &ty, init)?;
    begun_by(alloc, role, q, name, &ty, x, env)
}

/// One variable: its brackets, its initialiser, and then the variable.
#[tactic(auto, unfolding(crate::specs::Variables::declarator))]
pub fn declarator(
    alloc: Global,
    role: Role,
    q: &Qualified,
    base: &Written,
    d: &Declarator,
    env: &mut SoundEnv,
) -> Result<(), Refusal>
    ensures { GivesBy (λ _. env.new) result (spec.declarator role q.now base.now d.now env.old) }
{
    match d {
        Declarator::Plain(name, dims) => {
            let ty = declared_whole(alloc, env.get(), base, dims.as_slice())?;
            plain_by(alloc, role, q, name, ty, env)
        }
        Declarator::Initialised(name, dims, init) => {
            initialised(alloc, role, q, base, name, dims.as_slice(), init, env)
        }
    }
}

/// The variables of a declaration, from left to right.
pub fn declarators(
    alloc: Global,
    role: Role,
    q: &Qualified,
    base: &Written,
    all: &[Declarator],
    env: &mut SoundEnv,
) -> Result<(), Refusal>
    ensures { GivesBy (λ _. env.new) result (spec.all_declared (map (spec.declarator role q.now base.now) all.now) env.old) }
{
    for k in 0..all.len() {
        declarator(alloc, role, q, base, &all[k], env)?;
    }
    Ok(())
}
