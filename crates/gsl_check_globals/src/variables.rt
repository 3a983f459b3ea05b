//! Global variables.

ghost use Rattle.std.specs.Prelude.{◌≡◌, IfOk, Some};
ghost use Rattle.gsl_base.specs.Checked.{Gives, GivesBy};
ghost use Rattle.gsl_makers.specs.Heights.{AreHeights};
ghost use Rattle.gsl_check_globals.specs.Variables as spec;

use gsl_base::{Code, Memory, Refusal, Text};
use gsl_check_decl::{SoundEnv, is_declared, is_high, is_reserved, may_be_had, may_be_plain};
use gsl_check_expr::{Env, Written, begun_type};
use gsl_compute::copy_value;
use gsl_fold::constant;
use gsl_syntax::Name;
use gsl_tree::{Expr, Folded, GlobalVar};
use gsl_types::Ty;
use gsl_typing::{Part, as_type, is_unread, refuse};
use gsl_values::Value;
use std::alloc::Global;

/// The variable of a name and a type that begins as zeros.
fn plain_global(alloc: Global, name: &Name, ty: Ty) -> Result<GlobalVar, Memory>
    ensures { IfOk result (λ g. g ≡ spec.plain_global name.now ty) }
{
    let text = Text::from_str(alloc, name.text.as_str())?;
    Ok(GlobalVar {
        name: text,
        ty,
        constant: false,
        init: None,
        value: None,
        place: name.place,
    })
}

/// A global variable that begins as zeros.
#[tactic(auto, unfolding(crate::specs::Variables::plain_variable))]
pub fn plain_variable(
    alloc: Global,
    fixed: bool,
    name: &Name,
    ty: Ty,
    env: &mut SoundEnv,
) -> Result<(), Refusal>
    ensures { GivesBy (λ _. env.new) result (spec.plain_variable fixed name.now ty env.old) }
{
    may_be_plain(env.get(), fixed, name, &ty)?;
    let next = plain_global(alloc, name, ty)?;
    env.declare_global(alloc, next, Folded::NotConstant)?;
    Ok(())
}

/// The type of a global variable that begins as a constant expression, if it may.
#[tactic(auto, unfolding(crate::specs::Variables::may_begin))]
pub fn may_begin(
    alloc: Global,
    env: &Env,
    name: &Name,
    written: &Written,
    x: &Part,
) -> Result<Ty, Refusal>
    requires heights { AreHeights env.now.scene.structs env.now.heights }
    ensures { Gives result (spec.may_begin name.now written.now x.now env.now) }
{
    if is_declared(env, &name.text) {
        return Err(refuse(name.place, Code::E0403));
    }
    if is_reserved(&name.text) {
        return Err(refuse(name.place, Code::E0404));
    }
    let ty = match begun_type(alloc, written, x)? {
        Some(ty) => ty,
        None => return Err(refuse(name.place, Code::E0504)),
    };
    if is_unread(&env.scene, x) {
        return Err(refuse(name.place, Code::E0507));
    }
    if !may_be_had(&env.scene, &ty) {
        return Err(refuse(name.place, Code::E0510));
    }
    match constant(alloc, &env.scene.structs, &env.scene.consts, &x.expr)? {
        Folded::Known(_) => {}
        Folded::NotConstant => return Err(refuse(name.place, Code::E0601)),
        Folded::Free => return Err(refuse(name.place, Code::E0602)),
    }
    if is_high(env, &ty) {
        return Err(refuse(name.place, Code::E0908));
    }
    Ok(ty)
}

/// The value that is known.
fn value_in(alloc: Global, folded: &Folded) -> Result<Option<Value>, Memory>
    ensures { IfOk result (λ v. v ≡ spec.value_in folded.now) }
{
    match folded {
        Folded::Known(value) => Ok(Some(copy_value(alloc, value)?)),
        Folded::NotConstant | Folded::Free => Ok(None),
    }
}

/// What is known of a variable that is `const` or is not.
fn known_of(fixed: bool, folded: Folded) -> Folded
    ensures { result ≡ spec.known_of fixed folded }
{
    if fixed { folded } else { Folded::NotConstant }
}

/// The variable of a name and a type that begins as an expression.
fn set_global(
    alloc: Global,
    fixed: bool,
    name: &Name,
    ty: Ty,
    e: Expr,
    folded: &Folded,
) -> Result<GlobalVar, Memory>
    ensures { IfOk result (λ g. g ≡ record { name = name.now.text; ty = ty; constant = fixed; init = Some e; value = spec.value_in folded.now; place = name.now.place }) }
{
    let text = Text::from_str(alloc, name.text.as_str())?;
    let value = value_in(alloc, folded)?;
    Ok(GlobalVar {
        name: text,
        ty,
        constant: fixed,
        init: Some(e),
        value,
        place: name.place,
    })
}

/// A global variable of a type that begins as an expression of its type.
#[tactic(auto, unfolding(crate::specs::Variables::set_variable))]
pub fn set_variable(
    alloc: Global,
    fixed: bool,
    name: &Name,
    ty: Ty,
    e: Expr,
    env: &mut SoundEnv,
) -> Result<(), Refusal>
    ensures { GivesBy (λ _. env.new) result (spec.set_variable fixed name.now ty e env.old) }
{
    let scene = &env.get().scene;
    let folded = constant(alloc, &scene.structs, &scene.consts, &e)?;
    let next = set_global(alloc, fixed, name, ty, e, &folded)?;
    env.declare_global(alloc, next, known_of(fixed, folded))?;
    Ok(())
}

/// A global variable that begins as a value, which is converted to its type.
#[tactic(auto, unfolding(crate::specs::Variables::begun_variable))]
pub fn begun_variable(
    alloc: Global,
    fixed: bool,
    name: &Name,
    written: &Written,
    x: Part,
    env: &mut SoundEnv,
) -> Result<(), Refusal>
    ensures { GivesBy (λ _. env.new) result (spec.begun_variable fixed name.now written.now x env.old) }
{
    let ty = may_begin(alloc, env.get(), name, written, &x)?;
    let e = as_type(alloc, &ty, x.expr)?;
    set_variable(alloc, fixed, name, ty, e, env)
}
