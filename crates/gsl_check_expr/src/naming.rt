//! What names and literals give as values.

ghost use Rattle.std.specs.Prelude.{◌≡◌, map, slice_get, IfOk, Ok, Some};
ghost use Rattle.gsl_base.specs.Checked.{Gives};
ghost use Rattle.gsl_types.specs.declared.ty.Ty.TheVariants as ty;
ghost use Rattle.gsl_values.specs.declared.value.Value.TheVariants.{Many, Word};
ghost use Rattle.gsl_tree.specs.Around as tree_spec;
ghost use Rattle.gsl_tree.specs.declared.expr.ExprKind.TheVariants as kind;
ghost use Rattle.gsl_typing.specs.Scene.{around, made};
ghost use Rattle.gsl_check_expr.specs.Named as spec;

use crate::env::Env;
use gsl_base::{Code, List, Memory, Place, Refusal, Text};
use gsl_names::Entry;
use gsl_tree::{Expr, ExprKind, LocalSizes, StageVar};
use gsl_types::{Scalar, Ty};
use gsl_typing::{Part, Scene, copy, refuse};
use gsl_values::Value;
use std::alloc::Global;

/// A literal of a scalar type, by its word.
#[tactic(auto, unfolding(crate::specs::Named::literal))]
pub fn literal(place: Place, scalar: Scalar, word: u32) -> Part
    ensures { spec.literal place (ty.One scalar) word ≡ Ok result }
{
    Part {
        expr: Expr {
            ty: Ty::One(scalar),
            place,
            kind: ExprKind::Const(Value::Word(word)),
        },
        fixed: false,
    }
}

fn local_type(alloc: Global, scene: &Scene, number: u32) -> Result<Option<Ty>, Memory>
    ensures { IfOk result (λ t. t ≡ slice_get scene.now.locals number) }
{
    if number as usize >= scene.locals.len() {
        return Ok(None);
    }
    Ok(Some(copy(alloc, &scene.locals[number as usize])?))
}

fn param_type(alloc: Global, scene: &Scene, number: u32) -> Result<Option<Ty>, Memory>
    ensures { IfOk result (λ t. t ≡ spec.param_type (slice_get scene.now.params number)) }
{
    if number as usize >= scene.params.len() {
        return Ok(None);
    }
    Ok(Some(copy(alloc, &scene.params[number as usize].1)?))
}

fn global_type(alloc: Global, scene: &Scene, number: u32) -> Result<Option<Ty>, Memory>
    ensures { IfOk result (λ t. t ≡ spec.global_type (slice_get scene.now.globals number)) }
{
    if number as usize >= scene.globals.len() {
        return Ok(None);
    }
    Ok(Some(copy(alloc, &scene.globals[number as usize].ty)?))
}

fn interface_type(alloc: Global, scene: &Scene, number: u32) -> Result<Option<Ty>, Memory>
    ensures { IfOk result (λ t. t ≡ spec.interface_type (slice_get scene.now.interfaces number)) }
{
    if number as usize >= scene.interfaces.len() {
        return Ok(None);
    }
    Ok(Some(copy(alloc, &scene.interfaces[number as usize].ty)?))
}

fn member_type(alloc: Global, scene: &Scene, block: u32, number: u32) -> Result<Option<Ty>, Memory>
    ensures { IfOk result (λ t. t ≡ spec.member_type (tree_spec.block_member (around scene.now) block number)) }
{
    if block as usize >= scene.blocks.len() {
        return Ok(None);
    }
    let members = &scene.blocks[block as usize].members;
    if number as usize >= members.len() {
        return Ok(None);
    }
    Ok(Some(copy(alloc, &members[number as usize].ty)?))
}

/// A variable of a type; one that is not there is an unknown name.
fn variable(place: Place, kind: ExprKind, fixed: bool, of: Option<Ty>) -> Result<Part, Refusal>
    ensures { Gives result (spec.variable place kind fixed of) }
{
    match of {
        Some(ty) => Ok(Part {
            expr: Expr { ty, place, kind },
            fixed,
        }),
        None => Err(refuse(place, Code::E0401)),
    }
}

fn stage_type(var: StageVar) -> Ty
    ensures { result ≡ tree_spec.stage_var_type var }
{
    match var {
        StageVar::NumWorkGroups
        | StageVar::WorkGroupId
        | StageVar::LocalInvocationId
        | StageVar::GlobalInvocationId => Ty::Vector(Scalar::Uint, 3),
        StageVar::LocalInvocationIndex => Ty::One(Scalar::Uint),
        StageVar::VertexIndex | StageVar::InstanceIndex => Ty::One(Scalar::Int),
    }
}

fn words(alloc: Global, parts: &[u32]) -> Result<Value, Memory>
    ensures { IfOk result (λ v. v ≡ Many (map Word parts.now)) }
{
    let mut list = List::new(alloc);
    for k in 0..parts.len() {
        list.push(Value::Word(parts[k]))?;
    }
    Ok(Value::Many(list))
}

/// `gl_WorkGroupSize`: the constant of the first size that the unit states.
fn size_value(alloc: Global, place: Place, sizes: &LocalSizes) -> Result<Part, Refusal>
    ensures { Gives result (spec.size_value place sizes.now) }
{
    if sizes.len() == 0 {
        return Err(refuse(place, Code::E0605));
    }
    let value = words(alloc, &sizes[0].parts)?;
    Ok(Part {
        expr: Expr {
            ty: Ty::Vector(Scalar::Uint, 3),
            place,
            kind: ExprKind::Const(value),
        },
        fixed: false,
    })
}

fn stage(place: Place, var: StageVar) -> Part
    ensures { result ≡ made place (tree_spec.stage_var_type var) (kind.Stage var) }
{
    Part {
        expr: Expr {
            ty: stage_type(var),
            place,
            kind: ExprKind::Stage(var),
        },
        fixed: false,
    }
}

fn entry_value(alloc: Global, scene: &Scene, place: Place, entry: Entry) -> Result<Part, Refusal>
    ensures { Gives result (spec.named_by scene.now place (Some entry)) }
{
    match entry {
        Entry::Local(number, fixed) => {
            let ty = local_type(alloc, scene, number)?;
            variable(place, ExprKind::Local(number), fixed, ty)
        }
        Entry::Param(number, fixed) => {
            let ty = param_type(alloc, scene, number)?;
            variable(place, ExprKind::Param(number), fixed, ty)
        }
        Entry::Global(number) => {
            let ty = global_type(alloc, scene, number)?;
            variable(place, ExprKind::Global(number), false, ty)
        }
        Entry::Member(block, number) => {
            let ty = member_type(alloc, scene, block, number)?;
            variable(place, ExprKind::BlockMember(block, number), false, ty)
        }
        Entry::Interface(number) => {
            let ty = interface_type(alloc, scene, number)?;
            variable(place, ExprKind::Interface(number), false, ty)
        }
        Entry::Stage(var) => Ok(stage(place, var)),
        Entry::Size => size_value(alloc, place, &scene.sizes),
        Entry::Instance(_)
        | Entry::Block(_)
        | Entry::Struct(_)
        | Entry::Function(_)
        | Entry::Builtin(_) => Err(refuse(place, Code::E0402)),
    }
}

/// A name as a value.
#[tactic(auto, unfolding(crate::specs::Named::named))]
pub fn named(alloc: Global, env: &Env, place: Place, name: &Text) -> Result<Part, Refusal>
    ensures { Gives result (spec.named env.now place name.now) }
{
    match env.names.find(name) {
        Some(entry) => entry_value(alloc, &env.scene, place, entry),
        None => Err(refuse(place, Code::E0401)),
    }
}

/// The block of which a name is the instance name.
#[tactic(auto, unfolding(crate::specs::Named::instance_of))]
pub fn instance_of(env: &Env, name: &Text) -> Option<u32>
    ensures { result ≡ spec.instance_of env.now name.now }
{
    match env.names.find(name) {
        Some(Entry::Instance(number)) => Some(number),
        _ => None,
    }
}
