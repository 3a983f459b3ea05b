//! What stands outside functions.

ghost use Rattle.std.specs.Prelude.{◌≡◌, ◌<◌, ◌++◌, IfOk, Some, length, slice_get};
ghost use Rattle.gsl_tree.specs.WellTyped.{IsProgram};
ghost use Rattle.gsl_spv.specs.Calls.{take};
ghost use Rattle.gsl_tree.specs.declared.unit.Prototype.{Prototype as OnePrototype};
ghost use Rattle.gsl_lower_values.specs.Building as steps;
ghost use Rattle.gsl_lower_types.specs.Known as puts;
ghost use Rattle.gsl_lower_flow.specs.Programs as spec;

use gsl_base::{List, Memory};
use gsl_lower_expr::stage_number;
use gsl_lower_holders::{FlowPlace, Ids, TypeIds};
use gsl_lower_needs::{Need, Needs};
use gsl_lower_types::{
    LaidTypes, blocks_put, classes_of, globals_put, interfaces_put, program_types, stage_put,
    value_type,
};
use gsl_spv::{BuildRefusal, Builder};
use gsl_tree::{Program, Prototype, Prototypes, StageVar};
use gsl_words::Target;
use std::alloc::Global;

fn fresh_id(b: &mut Builder) -> Result<u32, BuildRefusal>
    ensures { steps.Does result b.new (steps.id_by take b.old) }
{
    b.id()
}

fn prototype_at(prototypes: &Prototypes, k: usize) -> &Prototype
    requires { k < length prototypes.now }
    ensures { slice_get prototypes.now k ≡ Some result.now }
{
    &prototypes[k]
}

/// An id for each head of a function.
fn heads(alloc: Global, b: &mut Builder, prototypes: &Prototypes) -> Result<Ids, BuildRefusal>
    ensures { steps.Does result b.new (steps.in_order (λ (one : OnePrototype). steps.id_by take) prototypes.now b.old) }
{
    let mut ids = List::new(alloc);
    for k in 0..prototypes.len() {
        let _prototype = prototype_at(prototypes, k);
        ids.push(fresh_id(b)?)?;
    }
    Ok(ids)
}

/// The type of what is built.
#[tactic(auto, unfolding(crate::specs::Programs::built_type))]
fn built_type(
    alloc: Global,
    b: &mut Builder,
    known: &mut TypeIds,
    one: &Need,
) -> Result<(), BuildRefusal>
    ensures { puts.Does result b.new known.new (spec.built_type one.now known.old b.old) }
{
    match one {
        Need::Built(ty) => {
            value_type(alloc, b, known, ty)?;
            Ok(())
        }
        Need::Holder(_) | Need::Stage(_) => Ok(()),
    }
}

/// The types of what is built.
fn built_types(
    alloc: Global,
    b: &mut Builder,
    known: &mut TypeIds,
    asked: &Needs,
) -> Result<(), BuildRefusal>
    ensures { puts.Does result b.new known.new (spec.built_types asked.now known.old b.old) }
{
    for k in 0..asked.len() {
        built_type(alloc, b, known, &asked[k])?;
    }
    Ok(())
}

fn is_var(var: StageVar, one: &Need) -> bool
    ensures { result ≡ spec.is_var var one.now }
{
    match one {
        Need::Stage(other) => stage_number(*other) == stage_number(var),
        Need::Holder(_) | Need::Built(_) => false,
    }
}

/// Whether a built-in variable is used.
fn uses(asked: &Needs, var: StageVar) -> bool
    ensures { result ≡ spec.uses asked.now var }
{
    for k in 0..asked.len() {
        if is_var(var, &asked[k]) {
            return true;
        }
    }
    false
}

/// The id of a built-in variable, where it is used.
#[tactic(auto, unfolding(crate::specs::Programs::stage_if))]
fn stage_if(b: &mut Builder, asked: &Needs, var: StageVar) -> Result<u32, BuildRefusal>
    ensures { steps.Does result b.new (spec.stage_if asked.now var b.old) }
{
    if uses(asked, var) {
        return stage_put(b, var);
    }
    Ok(0)
}

fn compute_stages(b: &mut Builder, asked: &Needs) -> Result<[u32; 5], BuildRefusal>
    ensures { steps.Does result b.new (spec.compute_stages asked.now b.old) }
{
    let groups = stage_if(b, asked, StageVar::NumWorkGroups)?;
    let group = stage_if(b, asked, StageVar::WorkGroupId)?;
    let local = stage_if(b, asked, StageVar::LocalInvocationId)?;
    let global = stage_if(b, asked, StageVar::GlobalInvocationId)?;
    let index = stage_if(b, asked, StageVar::LocalInvocationIndex)?;
    Ok([groups, group, local, global, index])
}

fn vertex_stages(b: &mut Builder, asked: &Needs) -> Result<[u32; 2], BuildRefusal>
    ensures { steps.Does result b.new (spec.vertex_stages asked.now b.old) }
{
    let vertex = stage_if(b, asked, StageVar::VertexIndex)?;
    let instance = stage_if(b, asked, StageVar::InstanceIndex)?;
    Ok([vertex, instance])
}

fn joined(alloc: Global, first: [u32; 5], second: [u32; 2]) -> Result<Ids, Memory>
    ensures { IfOk result (λ l. l ≡ first ++ second) }
{
    let mut ids = List::from_slice(alloc, &first)?;
    ids.extend_from_slice(&second)?;
    Ok(ids)
}

/// The ids of the built-in variables by their numbers.
#[tactic(auto, unfolding(crate::specs::Programs::stages))]
fn stages(alloc: Global, b: &mut Builder, asked: &Needs) -> Result<Ids, BuildRefusal>
    ensures { steps.Does result b.new (spec.stages asked.now b.old) }
{
    let first = compute_stages(b, asked)?;
    let second = vertex_stages(b, asked)?;
    let ids = joined(alloc, first, second)?;
    Ok(ids)
}

/// An id for each head, the types, and the variables outside functions.
#[tactic(auto, unfolding(crate::specs::Programs::declared))]
pub(crate) fn declared(
    alloc: Global,
    b: &mut Builder,
    target: Target,
    program: &Program,
    asked: &Needs,
) -> Result<FlowPlace, BuildRefusal>
    requires { IsProgram program.now }
    ensures { steps.Does result b.new (spec.declared target program.now asked.now b.old) }
{
    let functions = heads(alloc, b, &program.prototypes)?;
    let mut known = List::new(alloc);
    program_types(alloc, b, &mut known, program)?;
    built_types(alloc, b, &mut known, asked)?;
    let mut laid = LaidTypes {
        std140: List::new(alloc),
        std430: List::new(alloc),
    };
    let blocks = blocks_put(
        alloc,
        b,
        &mut laid,
        target,
        &program.structs,
        &program.blocks,
    )?;
    let globals = globals_put(alloc, b, &mut known, &program.structs, &program.globals)?;
    let interfaces = interfaces_put(alloc, b, &mut known, &program.interfaces)?;
    let stage_vars = stages(alloc, b, asked)?;
    let classes = classes_of(alloc, target, &program.blocks)?;
    Ok(FlowPlace {
        label: 0,
        locals: List::new(alloc),
        params: List::new(alloc),
        globals,
        blocks,
        classes,
        interfaces,
        stage_vars,
        functions,
        composites: known,
        holders: List::new(alloc),
        used: 0,
    })
}
