//! Inputs, outputs and built-in variables.

ghost use Rattle.std.specs.Prelude.{◌≡◌};
ghost use Rattle.gsl_lower_values.specs.Building as steps;
ghost use Rattle.gsl_lower_types.specs.Interfaces as spec;
ghost use Rattle.gsl_lower_types.specs.Known.{Does};

use crate::declaring::variable_in;
use crate::values::value_type;
use gsl_base::List;
use gsl_instr::enumerant::{built_in, decoration, storage_class};
use gsl_lower_holders::{Ids, TypeIds};
use gsl_lower_values::{Shape, type_of};
use gsl_spv::{BuildRefusal, Builder, PlainConst};
use gsl_tree::{Interface, Interfaces, StageVar};
use gsl_types::Scalar;
use std::alloc::Global;

fn plain_variable(b: &mut Builder, output: bool, type_id: u32) -> Result<u32, BuildRefusal>
    ensures { steps.Does result b.new (spec.plain_variable output type_id b.old) }
{
    if output {
        let zero = b.constant(PlainConst::Null(type_id))?;
        return variable_in(b, storage_class::OUTPUT, type_id, Some(zero));
    }
    variable_in(b, storage_class::INPUT, type_id, None)
}

fn flat_where(b: &mut Builder, flat: bool, id: u32) -> Result<(), BuildRefusal>
    ensures { steps.Does result b.new (spec.flat_where flat id b.old) }
{
    if flat {
        return b.decorate(id, None, decoration::FLAT, None);
    }
    Ok(())
}

fn located(b: &mut Builder, i: &Interface, id: u32) -> Result<u32, BuildRefusal>
    ensures { steps.Does result b.new (spec.located i.now id b.old) }
{
    b.decorate(id, None, decoration::LOCATION, Some(i.location))?;
    flat_where(b, i.flat, id)?;
    Ok(id)
}

fn interface_variable(b: &mut Builder, i: &Interface, type_id: u32) -> Result<u32, BuildRefusal>
    ensures { steps.Does result b.new (spec.interface_variable i.now type_id b.old) }
{
    let id = plain_variable(b, i.output, type_id)?;
    located(b, i, id)
}

#[tactic(auto, unfolding(crate::specs::Interfaces::interface_put))]
fn interface_put(
    alloc: Global,
    b: &mut Builder,
    known: &mut TypeIds,
    i: &Interface,
) -> Result<u32, BuildRefusal>
    ensures { Does result b.new known.new (spec.interface_put i.now known.old b.old) }
{
    let id = value_type(alloc, b, known, &i.ty)?;
    interface_variable(b, i, id)
}

/// The variables of classes Input and Output that are the inputs and outputs of a program, in their order, each with its location, and Flat where
/// it is `flat` (GLSL 4.50, 4.3.4, 4.3.6 and 4.4.1). An output begins with zeros.
pub fn interfaces_put(
    alloc: Global,
    b: &mut Builder,
    known: &mut TypeIds,
    interfaces: &Interfaces,
) -> Result<Ids, BuildRefusal>
    ensures { Does result b.new known.new (spec.interfaces_put interfaces.now known.old b.old) }
{
    let mut ids = List::new(alloc);
    for k in 0..interfaces.len() {
        ids.push(interface_put(alloc, b, known, &interfaces[k])?)?;
    }
    Ok(ids)
}

fn built_in_of(var: StageVar) -> u32
    ensures { result ≡ spec.built_in_of var }
{
    match var {
        StageVar::NumWorkGroups => built_in::NUM_WORKGROUPS,
        StageVar::WorkGroupId => built_in::WORKGROUP_ID,
        StageVar::LocalInvocationId => built_in::LOCAL_INVOCATION_ID,
        StageVar::GlobalInvocationId => built_in::GLOBAL_INVOCATION_ID,
        StageVar::LocalInvocationIndex => built_in::LOCAL_INVOCATION_INDEX,
        StageVar::VertexIndex => built_in::VERTEX_INDEX,
        StageVar::InstanceIndex => built_in::INSTANCE_INDEX,
    }
}

fn stage_shape(var: StageVar) -> Shape
    ensures { result ≡ spec.stage_shape var }
{
    match var {
        StageVar::NumWorkGroups
        | StageVar::WorkGroupId
        | StageVar::LocalInvocationId
        | StageVar::GlobalInvocationId => (Scalar::Uint, 3),
        StageVar::LocalInvocationIndex => (Scalar::Uint, 1),
        StageVar::VertexIndex | StageVar::InstanceIndex => (Scalar::Int, 1),
    }
}

fn built_in_variable(b: &mut Builder, var: StageVar, type_id: u32) -> Result<u32, BuildRefusal>
    ensures { steps.Does result b.new (spec.built_in_variable var type_id b.old) }
{
    let id = variable_in(b, storage_class::INPUT, type_id, None)?;
    b.decorate(id, None, decoration::BUILT_IN, Some(built_in_of(var)))?;
    Ok(id)
}

/// A new variable of class Input that is a built-in variable of the stage (GLSL 4.50, 7.1; GL_KHR_vulkan_glsl).
#[tactic(auto, unfolding(crate::specs::Interfaces::stage_put))]
pub fn stage_put(b: &mut Builder, var: StageVar) -> Result<u32, BuildRefusal>
    ensures { steps.Does result b.new (spec.stage_put var b.old) }
{
    let id = type_of(b, stage_shape(var))?;
    built_in_variable(b, var, id)
}
