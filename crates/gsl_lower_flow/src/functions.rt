//! A function of the program.

ghost use Rattle.std.specs.Prelude.{◌≡◌, ◌<◌, ◌++◌, IfOk, OnOk, Some, length, slice_get};
ghost use Rattle.gsl_types.specs.declared.ty.Ty.TheViews.{out-Ty};
ghost use Rattle.gsl_lower_expr.specs.Coming.{setting_of};
ghost use Rattle.gsl_lower_holders.specs.Flow.{Does, each, flow_of};
ghost use Rattle.gsl_lower_flow.specs.Functions as spec;

use gsl_base::{List, Memory};
use gsl_instr::enumerant::storage_class;
use gsl_instr::op;
use gsl_lower_expr::{Lowerer, result_type, zeros};
use gsl_lower_holders::{FlowPlace, Ids, id_in, opening, type_id};
use gsl_lower_needs::{Asker, Need, Needs};
use gsl_lower_stmt::{Body, Exits};
use gsl_lower_values::give;
use gsl_spv::{BuildRefusal, Builder, PlainConst, PlainType};
use gsl_tree::{Function, Params, Prototype};
use gsl_types::{Direction, Ty, Types};
use gsl_typing::copy;
use std::alloc::Global;

/// A variable of the function, which begins as zeros.
#[tactic(auto, unfolding(crate::specs::Functions::variable))]
fn variable(alloc: Global, b: &mut Builder, p: &FlowPlace, ty: &Ty) -> Result<u32, BuildRefusal>
    ensures { Does result b.new p.now (spec.variable ty.now (flow_of b.old p.now)) }
{
    let t = type_id(b, p, ty)?;
    let pointer = b.plain_type(PlainType::Pointer(storage_class::FUNCTION, t))?;
    let zero = b.constant(PlainConst::Null(t))?;
    give(
        alloc,
        b,
        op::VARIABLE,
        &[storage_class::FUNCTION, zero],
        pointer,
    )
}

fn type_at(types: &Types, k: usize) -> &Ty
    requires { k < length types.now }
    ensures { slice_get types.now k ≡ Some result.now }
{
    &types[k]
}

fn variables(
    alloc: Global,
    b: &mut Builder,
    p: &FlowPlace,
    types: &Types,
) -> Result<Ids, BuildRefusal>
    ensures { Does result b.new p.now (each spec.variable types.now (flow_of b.old p.now)) }
{
    let mut ids = List::new(alloc);
    for k in 0..types.len() {
        ids.push(variable(alloc, b, p, type_at(types, k))?)?;
    }
    Ok(ids)
}

#[tactic(auto, unfolding(crate::specs::Functions::parameter_type))]
fn parameter_type(
    b: &mut Builder,
    p: &FlowPlace,
    param: &(Direction, Ty),
) -> Result<u32, BuildRefusal>
    ensures { Does result b.new p.now (spec.parameter_type param.now (flow_of b.old p.now)) }
{
    let t = type_id(b, p, &param.1)?;
    b.plain_type(PlainType::Pointer(storage_class::FUNCTION, t))
}

fn param_at(params: &Params, k: usize) -> &(Direction, Ty)
    requires { k < length params.now }
    ensures { slice_get params.now k ≡ Some result.now }
{
    &params[k]
}

fn parameter_types(
    alloc: Global,
    b: &mut Builder,
    p: &FlowPlace,
    params: &Params,
) -> Result<Ids, BuildRefusal>
    ensures { Does result b.new p.now (each spec.parameter_type params.now (flow_of b.old p.now)) }
{
    let mut ids = List::new(alloc);
    for k in 0..params.len() {
        ids.push(parameter_type(b, p, param_at(params, k))?)?;
    }
    Ok(ids)
}

#[tactic(auto, unfolding(crate::specs::Functions::parameter))]
fn parameter(
    alloc: Global,
    b: &mut Builder,
    p: &FlowPlace,
    pointer: u32,
) -> Result<u32, BuildRefusal>
    ensures { Does result b.new p.now (spec.parameter pointer (flow_of b.old p.now)) }
{
    give(alloc, b, op::FUNCTION_PARAMETER, &[], pointer)
}

fn id_at(ids: &[u32], k: usize) -> &u32
    requires { k < length ids.now }
    ensures { slice_get ids.now k ≡ Some result.now }
{
    &ids[k]
}

fn parameters(
    alloc: Global,
    b: &mut Builder,
    p: &FlowPlace,
    pointers: &[u32],
) -> Result<Ids, BuildRefusal>
    ensures { Does result b.new p.now (each spec.parameter pointers.now (flow_of b.old p.now)) }
{
    let mut ids = List::new(alloc);
    for k in 0..pointers.len() {
        ids.push(parameter(alloc, b, p, *id_at(pointers, k))?)?;
    }
    Ok(ids)
}

/// The head of a function under an id, up to its first label: the ids of its parameters.
#[tactic(auto, unfolding(crate::specs::Functions::headed))]
fn headed(
    alloc: Global,
    b: &mut Builder,
    p: &mut FlowPlace,
    id: u32,
    prototype: &Prototype,
) -> Result<Ids, BuildRefusal>
    ensures { Does result b.new p.new (spec.headed id prototype.now (flow_of b.old p.old)) }
{
    let result = result_type(b, p, &prototype.result)?;
    let pointers = parameter_types(alloc, b, p, &prototype.params)?;
    let ty = b.function_type(result, pointers.as_slice())?;
    b.put(op::FUNCTION, &[result, id, 0, ty])?;
    let params = parameters(alloc, b, p, pointers.as_slice())?;
    let label = b.id()?;
    opening(b, p, label)?;
    Ok(params)
}

/// The types of holders, with that of one more.
fn with_type(alloc: Global, types: &mut Types, one: &Need) -> Result<(), Memory>
    ensures { OnOk result (types.new ≡ types.old ++ spec.holder_type one.now) }
{
    match one {
        Need::Holder(ty) => {
            let same = copy(alloc, ty)?;
            types.push(same)
        }
        Need::Built(_) | Need::Stage(_) => Ok(()),
    }
}

fn need_at(asked: &Needs, k: usize) -> &Need
    requires { k < length asked.now }
    ensures { slice_get asked.now k ≡ Some result.now }
{
    &asked[k]
}

/// The types of the holders that are asked for, in their order.
fn holder_types(alloc: Global, asked: &Needs) -> Result<Types, Memory>
    ensures { IfOk result (λ l. l ≡ spec.holder_types asked.now) }
{
    let mut types = List::new(alloc);
    for k in 0..asked.len() {
        with_type(alloc, &mut types, need_at(asked, k))?;
    }
    Ok(types)
}

/// Holders for what is asked for.
#[tactic(auto, unfolding(crate::specs::Functions::holders))]
fn holders(
    alloc: Global,
    b: &mut Builder,
    p: &FlowPlace,
    asked: &Needs,
) -> Result<Ids, BuildRefusal>
    ensures { Does result b.new p.now (spec.holders asked.now (flow_of b.old p.now)) }
{
    let types = holder_types(alloc, asked)?;
    variables(alloc, b, p, &types)
}

/// From here on these are the variables.
#[tactic(auto, unfolding(crate::specs::Functions::placed))]
fn placed(
    b: &Builder,
    p: &mut FlowPlace,
    params: Ids,
    locals: Ids,
    holders: Ids,
) -> Result<(), BuildRefusal>
    ensures { Does result b.now p.new (spec.placed params locals holders (flow_of b.now p.old)) }
{
    p.params = params;
    p.locals = locals;
    p.holders = holders;
    p.used = 0;
    Ok(())
}

/// The head of a function, with its variables.
#[tactic(auto, unfolding(crate::specs::Functions::begun))]
fn begun(
    alloc: Global,
    b: &mut Builder,
    p: &mut FlowPlace,
    id: u32,
    prototype: &Prototype,
    f: &Function,
    asked: &Needs,
) -> Result<(), BuildRefusal>
    ensures { Does result b.new p.new (spec.begun id prototype.now f.now asked.now (flow_of b.old p.old)) }
{
    let params = headed(alloc, b, p, id, prototype)?;
    let locals = variables(alloc, b, p, &f.locals)?;
    let holders = holders(alloc, b, p, asked)?;
    placed(b, p, params, locals, holders)
}

fn zeros_returned(b: &mut Builder, p: &FlowPlace, ty: &Ty) -> Result<(), BuildRefusal>
    ensures { Does result b.new p.now (spec.zeros_returned ty.now (out-Ty ty.now) (flow_of b.old p.now)) }
{
    match ty {
        Ty::Void => b.put(op::RETURN, &[]),
        other => {
            let zero = zeros(b, p, other)?;
            b.put(op::RETURN_VALUE, &[zero])
        }
    }
}

/// The end of a function's body.
#[tactic(auto, unfolding(crate::specs::Functions::ending))]
fn ending(b: &mut Builder, p: &FlowPlace, left: bool, ty: &Ty) -> Result<(), BuildRefusal>
    ensures { Does result b.new p.now (spec.ending left ty.now (flow_of b.old p.now)) }
{
    if left {
        return Ok(());
    }
    zeros_returned(b, p, ty)
}

fn bodied(
    lowerer: &Lowerer<'_>,
    b: &mut Builder,
    p: &mut FlowPlace,
    f: &Function,
    ty: &Ty,
) -> Result<(), BuildRefusal>
    ensures { Does result b.new p.new (spec.bodied (setting_of lowerer.now.shapes.now lowerer.now.interfaces.now lowerer.now.prototypes.now) f.now ty.now (flow_of b.old p.old)) }
{
    let body = Body {
        lowerer: *lowerer,
        locals: &f.locals,
    };
    let exits = Exits {
        break_to: None,
        continue_to: None,
    };
    let left = body.row(b, p, &f.body, exits)?;
    ending(b, p, left, ty)?;
    b.put(op::FUNCTION_END, &[])
}

/// What a function asks for.
fn needs_of(lowerer: &Lowerer<'_>, f: &Function) -> Result<Needs, Memory>
    ensures { IfOk result (λ l. l ≡ spec.needs_of lowerer.now.prototypes.now f.now) }
{
    let asker = Asker {
        alloc: lowerer.alloc,
        prototypes: lowerer.prototypes,
    };
    let mut asked = List::new(lowerer.alloc);
    asker.body(&f.body, &mut asked)?;
    Ok(asked)
}

/// A function.
#[tactic(auto, unfolding(crate::specs::Functions::function_put))]
pub(crate) fn function_put(
    lowerer: &Lowerer<'_>,
    b: &mut Builder,
    p: &mut FlowPlace,
    f: &Function,
) -> Result<(), BuildRefusal>
    ensures { Does result b.new p.new (spec.function_put (setting_of lowerer.now.shapes.now lowerer.now.interfaces.now lowerer.now.prototypes.now) lowerer.now.prototypes.now f.now (flow_of b.old p.old)) }
{
    let asked = needs_of(lowerer, f)?;
    if f.prototype as usize >= lowerer.prototypes.len() {
        return Err(BuildRefusal::Memory);
    }
    let prototype = &lowerer.prototypes[f.prototype as usize];
    let Some(id) = id_in(p.functions.as_slice(), f.prototype) else {
        return Err(BuildRefusal::Memory);
    };
    begun(lowerer.alloc, b, p, id, prototype, f, &asked)?;
    bodied(lowerer, b, p, f, &prototype.result)
}
