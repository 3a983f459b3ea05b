//! The values of constants, and zeros.

ghost use Rattle.std.specs.Prelude.{◌≡◌, IfOk, map, replicate};
ghost use Rattle.gsl_enact_values.specs.Search.{front};
ghost use Rattle.gsl_kinds.specs.Seen as seen;
ghost use Rattle.gsl_machine.specs.Constants as spec;
ghost use Rattle.gsl_valid.specs.Kinds as kinds;
ghost use Rattle.gsl_values.specs.declared.value.Value.TheVariants.{Many};

use crate::search::latest;
use gsl_base::{List, Memory};
use gsl_compute::copy_value;
use gsl_ids::Definitions;
use gsl_instr::op;
use gsl_kinds::{Kind, Shape, kind_at, shape_in, value_of};
use gsl_values::{Value, Values};
use std::alloc::Global;

/// The length of an array, which a constant gives.
pub fn length_by(definitions: &Definitions<'_>, length: u32) -> u32
    ensures { result ≡ spec.length_by definitions.now length }
{
    match value_of(definitions, length) {
        Some(word) => word,
        None => 0,
    }
}

/// So many times a value.
fn repeated(alloc: Global, count: u32, value: &Value) -> Result<Value, Memory>
    ensures { IfOk result (λ v. v ≡ Many (replicate count value.now)) }
{
    let mut all = List::new(alloc);
    for k in 0..count {
        let one = copy_value(alloc, value)?;
        all.push(one)?;
    }
    Ok(Value::Many(all))
}

/// The value of a type whose leaves are all zero.
pub fn zeros(alloc: Global, definitions: &Definitions<'_>, type_: u32) -> Result<Value, Memory>
    ensures { IfOk result (λ v. v ≡ spec.zeros definitions.now type_) }
{
    zeros_in(alloc, definitions, definitions.module().instrs.len(), type_)
}

/// The zeros of a type, where its definition is among so many instructions at the front of the module.
#[cycle(zeros)]
fn zeros_in(
    alloc: Global,
    definitions: &Definitions<'_>,
    count: usize,
    type_: u32,
) -> Result<Value, Memory>
    ensures { IfOk result (λ v. v ≡ spec.zeros_in definitions.now (front definitions.now count) type_) }
{
    match latest(definitions, count, type_) {
        None => Ok(Value::Many(List::new(alloc))),
        Some((at, op, args)) => zeros_as(alloc, definitions, at, shape_in(kind_at(op, args))),
    }
}

#[cycle(zeros)]
fn zeros_as(
    alloc: Global,
    definitions: &Definitions<'_>,
    count: usize,
    shape: Shape<'_>,
) -> Result<Value, Memory>
    ensures { IfOk result (λ v. v ≡ spec.zeros_as definitions.now (spec.zeros_in definitions.now (front definitions.now count)) (seen.shape_seen shape.entry)) }
{
    match shape {
        Shape::Bool | Shape::Int { .. } => Ok(Value::Word(0)),
        Shape::Vector {
            component,
            count: times,
        } => {
            let one = zeros_in(alloc, definitions, count, component)?;
            repeated(alloc, times, &one)
        }
        Shape::Array { element, length } => {
            let one = zeros_in(alloc, definitions, count, element)?;
            repeated(alloc, length_by(definitions, length), &one)
        }
        Shape::Struct { members, .. } => {
            let all = zeros_each(alloc, definitions, count, members)?;
            Ok(Value::Many(all))
        }
        _ => Ok(Value::Many(List::new(alloc))),
    }
}

#[cycle(zeros)]
fn zeros_each(
    alloc: Global,
    definitions: &Definitions<'_>,
    count: usize,
    types: &[u32],
) -> Result<Values, Memory>
    ensures { IfOk result (λ all. all ≡ map (spec.zeros_in definitions.now (front definitions.now count)) types.now) }
{
    let mut all = List::new(alloc);
    for k in 0..types.len() {
        let one = zeros_in(alloc, definitions, count, types[k])?;
        all.push(one)?;
    }
    Ok(all)
}

/// The word of a constant of Bool.
fn truth_of(op: u16, args: &[u32]) -> u32
    ensures { result ≡ spec.truth_of (record { op = op; args = args.now }) }
{
    if op == op::CONSTANT_TRUE { 1 } else { 0 }
}

/// The value of a constant.
pub fn constant(alloc: Global, definitions: &Definitions<'_>, id: u32) -> Result<Value, Memory>
    ensures { IfOk result (λ v. v ≡ spec.constant definitions.now id) }
{
    constant_in(alloc, definitions, definitions.module().instrs.len(), id)
}

/// The value of a constant, where its definition is among so many instructions at the front of the module.
#[cycle(constant)]
fn constant_in(
    alloc: Global,
    definitions: &Definitions<'_>,
    count: usize,
    id: u32,
) -> Result<Value, Memory>
    ensures { IfOk result (λ v. v ≡ spec.constant_in definitions.now (front definitions.now count) id) }
{
    match latest(definitions, count, id) {
        None => Ok(Value::Many(List::new(alloc))),
        Some((at, op, args)) => fixed(alloc, definitions, at, (op, args), kind_at(op, args)),
    }
}

#[cycle(constant)]
fn fixed(
    alloc: Global,
    definitions: &Definitions<'_>,
    count: usize,
    instr: (u16, &[u32]),
    kind: Kind<'_>,
) -> Result<Value, Memory>
    ensures { IfOk result (λ v. v ≡ spec.fixed_if definitions.now (spec.constant_in definitions.now (front definitions.now count)) (record { op = instr.entry.0; args = instr.entry.1.now }) (kinds.constant_in (seen.kind_seen kind.entry))) }
{
    match kind {
        Kind::Fixes { type_, value } => match value {
            gsl_kinds::Value::Truth => Ok(Value::Word(truth_of(instr.0, instr.1))),
            gsl_kinds::Value::Word(word) => Ok(Value::Word(word)),
            gsl_kinds::Value::Parts(parts) => {
                let all = constant_each(alloc, definitions, count, parts)?;
                Ok(Value::Many(all))
            }
            gsl_kinds::Value::Zeros => zeros(alloc, definitions, type_),
        },
        _ => Ok(Value::Many(List::new(alloc))),
    }
}

#[cycle(constant)]
fn constant_each(
    alloc: Global,
    definitions: &Definitions<'_>,
    count: usize,
    ids: &[u32],
) -> Result<Values, Memory>
    ensures { IfOk result (λ all. all ≡ map (spec.constant_in definitions.now (front definitions.now count)) ids.now) }
{
    let mut all = List::new(alloc);
    for k in 0..ids.len() {
        let one = constant_in(alloc, definitions, count, ids[k])?;
        all.push(one)?;
    }
    Ok(all)
}
