//! Inputs and outputs.

ghost use Rattle.std.specs.Prelude.{◌≡◌, IfOk, unwrap_or};
ghost use Rattle.gsl_base.specs.Checked.{Gives, GivesBy};
ghost use Rattle.gsl_check_globals.specs.Variables as spec;

use gsl_base::{Code, Memory, Refusal, Stage, Text};
use gsl_check_decl::{SoundEnv, is_declared, is_reserved, may_be_had};
use gsl_check_expr::{Env, Written, begun_type};
use gsl_qualifiers::Qualified;
use gsl_syntax::Name;
use gsl_tree::Interface;
use gsl_types::Ty;
use gsl_typing::{Part, is_integer, is_unread, refuse, shape_of};
use std::alloc::Global;

/// Whether a type is an integer scalar or vector.
fn is_integer_type(ty: &Ty) -> bool
    ensures { result ≡ spec.is_integer_type ty.now }
{
    match shape_of(ty) {
        Some(shape) => is_integer(shape.0),
        None => false,
    }
}

/// Whether `flat` is missing: inputs of a fragment shader have it.
fn lacks_flat(stage: Stage, output: bool, flat: bool) -> bool
    ensures { result ≡ spec.lacks_flat stage output flat }
{
    match stage {
        Stage::Fragment => !output && !flat,
        Stage::Vertex | Stage::Compute => false,
    }
}

fn is_compute(stage: Stage) -> bool
    ensures { result ≡ spec.is_compute stage }
{
    match stage {
        Stage::Compute => true,
        Stage::Vertex | Stage::Fragment => false,
    }
}

/// Whether a stage has no input or output as this.
#[tactic(auto, unfolding(crate::specs::Variables::is_no_interface))]
pub fn is_no_interface(stage: Stage, output: bool, q: &Qualified, ty: &Ty) -> bool
    ensures { result ≡ spec.is_no_interface stage output q.now ty.now }
{
    is_compute(stage) || !is_integer_type(ty) || lacks_flat(stage, output, q.flat)
}

/// Whether an input or output may be declared.
#[tactic(auto, unfolding(crate::specs::Variables::may_be_interface))]
pub fn may_be_interface(
    env: &Env,
    output: bool,
    q: &Qualified,
    name: &Name,
    ty: &Ty,
) -> Result<(), Refusal>
    ensures { Gives result (spec.may_be_interface output q.now name.now ty.now env.now) }
{
    if is_declared(env, &name.text) {
        return Err(refuse(name.place, Code::E0403));
    }
    if is_reserved(&name.text) {
        return Err(refuse(name.place, Code::E0404));
    }
    if !may_be_had(&env.scene, ty) {
        return Err(refuse(name.place, Code::E0510));
    }
    if is_no_interface(env.scene.stage, output, q, ty) {
        return Err(refuse(name.place, Code::E0702));
    }
    if q.location.is_none() {
        return Err(refuse(name.place, Code::E0706));
    }
    Ok(())
}

/// The input or output of a name and a type.
fn interface_of(
    alloc: Global,
    output: bool,
    q: &Qualified,
    name: &Name,
    ty: Ty,
) -> Result<Interface, Memory>
    ensures { IfOk result (λ i. i ≡ record { name = name.now.text; ty = ty; output = output; flat = q.now.flat; location = unwrap_or q.now.location 0; place = name.now.place }) }
{
    let text = Text::from_str(alloc, name.text.as_str())?;
    Ok(Interface {
        name: text,
        ty,
        output,
        flat: q.flat,
        location: q.location.unwrap_or(0),
        place: name.place,
    })
}

/// An input or output.
#[tactic(auto, unfolding(crate::specs::Variables::interface))]
pub fn interface(
    alloc: Global,
    output: bool,
    q: &Qualified,
    name: &Name,
    ty: Ty,
    env: &mut SoundEnv,
) -> Result<(), Refusal>
    ensures { GivesBy (λ _. env.new) result (spec.interface output q.now name.now ty env.old) }
{
    may_be_interface(env.get(), output, q, name, &ty)?;
    let next = interface_of(alloc, output, q, name, ty)?;
    env.declare_interface(alloc, next)?;
    Ok(())
}

/// The fault of an input or output with an initialiser.
#[tactic(auto, unfolding(crate::specs::Variables::begun_interface))]
pub fn begun_interface(
    alloc: Global,
    env: &Env,
    output: bool,
    q: &Qualified,
    name: &Name,
    written: &Written,
    x: &Part,
) -> Result<(), Refusal>
    ensures { GivesBy (λ _. env.now) result (spec.begun_interface output q.now name.now written.now x.now env.now) }
{
    if is_declared(env, &name.text) {
        return Err(refuse(name.place, Code::E0403));
    }
    if is_reserved(&name.text) {
        return Err(refuse(name.place, Code::E0404));
    }
    let ty = match begun_type(alloc, written, x)? {
        Some(ty) => ty,
        None => return Err(refuse(name.place, Code::E0504)),
    };
    if is_unread(&env.scene, x) {
        return Err(refuse(name.place, Code::E0507));
    }
    if !may_be_had(&env.scene, &ty) {
        return Err(refuse(name.place, Code::E0510));
    }
    if is_no_interface(env.scene.stage, output, q, &ty) {
        return Err(refuse(name.place, Code::E0702));
    }
    Err(refuse(name.place, Code::E0703))
}
