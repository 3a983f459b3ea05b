//! Parameters, from left to right.

ghost use Rattle.std.specs.Prelude.{◌≡◌, [], IfOk};
ghost use Rattle.gsl_base.specs.Checked.{Gives};
ghost use Rattle.gsl_syntax.specs.declared.statement.Param.TheVariants as param_of;
ghost use Rattle.gsl_types.specs.Known.{AreStructs};
ghost use Rattle.gsl_makers.specs.Heights.{AreHeights};
ghost use Rattle.gsl_check_expr.specs.Expressions.{callee};
ghost use Rattle.gsl_check_heads.specs.Heads as spec;

use crate::parameter::{Parameter, Parameters, Said};
use crate::saying::said_in;
use gsl_base::{Code, List, Memory, Place, Refusal, Text};
use gsl_check_decl::{declared_whole, is_high, is_reserved, may_be_had};
use gsl_check_expr::{Env, whole_type, written_type};
use gsl_syntax::{Dim, Name, Param, Params, Qual, TypeSpec};
use gsl_tree::Params as Typed;
use gsl_types::{Direction, Ty};
use gsl_typing::{copy, refuse};
use std::alloc::Global;

/// Whether one of the parameters has a name.
#[tactic(auto, unfolding(crate::specs::Heads::has_param))]
fn has_param(params: &[Parameter], name: &Text) -> bool
    ensures { result ≡ spec.has_param params.now name.now }
{
    params.iter().any(|param| is_named(name, &param.name))
}

/// Whether a parameter has this name.
fn is_named(name: &Text, other: &Option<Text>) -> bool
    ensures { result ≡ spec.is_named name.now other.now }
{
    match other {
        Some(other) => *other == *name,
        None => false,
    }
}

/// Whether a parameter without a name may be declared.
#[tactic(auto, unfolding(crate::specs::Heads::may_be_unnamed))]
pub fn may_be_unnamed(env: &Env, place: Place, ty: &Ty) -> Result<(), Refusal>
    requires heights { AreHeights env.now.scene.structs env.now.heights }
    ensures { Gives result (spec.may_be_unnamed env.now place ty.now) }
{
    if !may_be_had(&env.scene, ty) {
        return Err(refuse(place, Code::E0510));
    }
    if is_high(env, ty) {
        return Err(refuse(place, Code::E0908));
    }
    Ok(())
}

/// Whether a parameter may be declared behind others.
#[tactic(auto, unfolding(crate::specs::Heads::may_be_param))]
pub fn may_be_param(env: &Env, params: &[Parameter], name: &Name, ty: &Ty) -> Result<(), Refusal>
    requires heights { AreHeights env.now.scene.structs env.now.heights }
    ensures { Gives result (spec.may_be_param env.now params.now name.now ty.now) }
{
    if has_param(params, &name.text) {
        return Err(refuse(name.place, Code::E0403));
    }
    if is_reserved(&name.text) {
        return Err(refuse(name.place, Code::E0404));
    }
    if !may_be_had(&env.scene, ty) {
        return Err(refuse(name.place, Code::E0510));
    }
    if is_high(env, ty) {
        return Err(refuse(name.place, Code::E0908));
    }
    Ok(())
}

/// The direction that is said, or `in`.
fn in_direction(direction: Option<Direction>) -> Direction
    ensures { result ≡ spec.in_direction direction }
{
    match direction {
        Some(direction) => direction,
        None => Direction::In,
    }
}

fn param_with(name: Option<Text>, said: Said, ty: Ty) -> Parameter
    ensures { result ≡ spec.param_with name said ty }
{
    Parameter {
        name,
        fixed: said.fixed,
        direction: in_direction(said.direction),
        ty,
    }
}

/// The place of a type as it is written.
#[tactic(auto, using(gsl_check_expr::proofs::Steps::steps))]
fn place_of(_env: &Env, ty: &TypeSpec) -> Place
    ensures { result ≡ (callee _env.now ty.now).place }
{
    match ty {
        TypeSpec::Basic(place, _, _) => *place,
        TypeSpec::Named(place, _, _) => *place,
    }
}

/// A parameter without a name.
fn unnamed(
    alloc: Global,
    env: &Env,
    _params: &[Parameter],
    quals: &[Qual],
    ty: &TypeSpec,
) -> Result<Parameter, Refusal>
    requires known { AreStructs env.now.scene.structs }
    requires heights { AreHeights env.now.scene.structs env.now.heights }
    ensures { Gives result (spec.param_by env.now _params.now (param_of.Unnamed quals.now ty.now)) }
{
    let said = said_in(alloc, env, quals)?;
    let base = written_type(alloc, env, ty)?;
    let whole = whole_type(base)?;
    may_be_unnamed(env, place_of(env, ty), &whole)?;
    Ok(param_with(None, said, whole))
}

/// A parameter of a name, where its type is known.
fn named_as(
    alloc: Global,
    env: &Env,
    params: &[Parameter],
    name: &Name,
    said: Said,
    ty: Ty,
) -> Result<Parameter, Refusal>
    requires heights { AreHeights env.now.scene.structs env.now.heights }
    ensures { Gives result (spec.named_as env.now params.now name.now said ty) }
{
    may_be_param(env, params, name, &ty)?;
    let text = Text::from_str(alloc, name.text.as_str())?;
    Ok(param_with(Some(text), said, ty))
}

/// A parameter of a name.
fn named(
    alloc: Global,
    env: &Env,
    params: &[Parameter],
    quals: &[Qual],
    ty: &TypeSpec,
    name: &Name,
    dims: &[Dim],
) -> Result<Parameter, Refusal>
    requires known { AreStructs env.now.scene.structs }
    requires heights { AreHeights env.now.scene.structs env.now.heights }
    ensures { Gives result (spec.param_by env.now params.now (param_of.Named quals.now ty.now name.now dims.now)) }
{
    let said = said_in(alloc, env, quals)?;
    let base = written_type(alloc, env, ty)?;
    let whole = declared_whole(alloc, env, &base, dims)?;
    named_as(alloc, env, params, name, said, whole)
}

/// A parameter behind others: its qualifiers, its type, its brackets, and then the parameter.
#[tactic(auto, unfolding(crate::specs::Heads::param))]
pub fn one_param(
    alloc: Global,
    env: &Env,
    params: &[Parameter],
    one: &Param,
) -> Result<Parameter, Refusal>
    requires known { AreStructs env.now.scene.structs }
    requires heights { AreHeights env.now.scene.structs env.now.heights }
    ensures { Gives result (spec.param env.now params.now one.now) }
{
    match one {
        Param::Unnamed(quals, ty) => unnamed(alloc, env, params, quals.as_slice(), ty),
        Param::Named(quals, ty, name, dims) => {
            named(
                alloc,
                env,
                params,
                quals.as_slice(),
                ty,
                name,
                dims.as_slice(),
            )
        }
    }
}

/// Parameters from left to right.
fn params_from(alloc: Global, env: &Env, items: &[Param]) -> Result<Parameters, Refusal>
    requires known { AreStructs env.now.scene.structs }
    requires heights { AreHeights env.now.scene.structs env.now.heights }
    ensures { Gives result (spec.params_from env.now items.now []) }
{
    let mut params = List::new(alloc);
    for k in 0..items.len() {
        let next = one_param(alloc, env, params.as_slice(), &items[k])?;
        params.push(next)?;
    }
    Ok(params)
}

/// The parameters of a head.
pub fn params_in(alloc: Global, env: &Env, params: &Params) -> Result<Parameters, Refusal>
    requires known { AreStructs env.now.scene.structs }
    requires heights { AreHeights env.now.scene.structs env.now.heights }
    ensures { Gives result (spec.params_in env.now params.now) }
{
    match params {
        Params::Items(items) => params_from(alloc, env, items.as_slice()),
        Params::Void(_) => Ok(List::new(alloc)),
    }
}

/// The directions and types of parameters.
pub fn typed_params(alloc: Global, params: &[Parameter]) -> Result<Typed, Memory>
    ensures { IfOk result (λ typed. typed ≡ spec.typed_params params.now) }
{
    let mut typed = List::new(alloc);
    for k in 0..params.len() {
        let ty = copy(alloc, &params[k].ty)?;
        typed.push((params[k].direction, ty))?;
    }
    Ok(typed)
}
