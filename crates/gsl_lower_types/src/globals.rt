//! Global variables, and constants of every type.

ghost use Rattle.std.specs.Prelude.{◌≡◌, IfOk, map, slice_get};
ghost use Rattle.gsl_lower_types.specs.Laid.{types_in};
ghost use Rattle.gsl_types.specs.declared.ty.Ty.TheViews.{out-Ty};
ghost use Rattle.gsl_lower_types.specs.Known.{Does};
ghost use Rattle.gsl_lower_types.specs.Globals as spec;

use crate::declaring::variable_in;
use crate::values::value_type;
use gsl_base::{List, Memory};
use gsl_instr::enumerant::storage_class;
use gsl_lower_holders::{Ids, TypeIds};
use gsl_lower_values::scalar_constant;
use gsl_spv::{BuildRefusal, Builder, PlainConst};
use gsl_tree::{GlobalVar, Globals};
use gsl_types::{Structs, Ty};
use gsl_typing::copy;
use gsl_values::{Value, Values};
use std::alloc::Global;

#[tactic(auto, using(crate::proofs::Parts::word_step))]
fn word_of(b: &mut Builder, known: &TypeIds, ty: &Ty, word: u32) -> Result<u32, BuildRefusal>
    ensures { Does result b.new known.now (spec.word_of (out-Ty ty.now) word known.now b.old) }
{
    match ty {
        Ty::One(s) => scalar_constant(b, *s, word),
        _ => Err(BuildRefusal::Memory),
    }
}

/// The type of a member of a struct, by their numbers.
fn member_type(
    alloc: Global,
    structs: &Structs,
    which: u32,
    number: usize,
) -> Result<Option<Ty>, Memory>
    ensures { IfOk result (λ t. t ≡ slice_get (types_in (slice_get structs.now which)) number) }
{
    if which as usize >= structs.len() {
        return Ok(None);
    }
    let members = &structs[which as usize].members;
    if number >= members.len() {
        return Ok(None);
    }
    let ty = copy(alloc, &members[number].ty)?;
    Ok(Some(ty))
}

/// The type of a component, element or member.
#[tactic(auto, using(crate::proofs::Parts::part_step))]
fn part_type(alloc: Global, structs: &Structs, ty: &Ty, number: usize) -> Result<Option<Ty>, Memory>
    ensures { IfOk result (λ t. t ≡ spec.part_type structs.now ty.now number) }
{
    match ty {
        Ty::Vector(s, _) => Ok(Some(Ty::One(*s))),
        Ty::Array(element, _) => Ok(Some(copy(alloc, element.get())?)),
        Ty::Struct(which) => member_type(alloc, structs, *which, number),
        Ty::Void | Ty::One(_) | Ty::Runtime(_) => Ok(None),
    }
}

/// The constant that is a value of a type.
#[cycle(constant)]
fn constant_of(
    alloc: Global,
    b: &mut Builder,
    known: &mut TypeIds,
    structs: &Structs,
    v: &Value,
    ty: &Ty,
) -> Result<u32, BuildRefusal>
    ensures { Does result b.new known.new (spec.constant_of structs.now v.now ty.now known.old b.old) }
{
    match v {
        Value::Word(word) => word_of(b, known, ty, *word),
        Value::Many(parts) => {
            let ids = parts_put(alloc, b, known, structs, parts, ty)?;
            composed_as(alloc, b, known, ty, ids.as_slice())
        }
    }
}

fn composed_as(
    alloc: Global,
    b: &mut Builder,
    known: &mut TypeIds,
    ty: &Ty,
    parts: &[u32],
) -> Result<u32, BuildRefusal>
    ensures { Does result b.new known.new (spec.composed_as ty.now parts.now known.old b.old) }
{
    let id = value_type(alloc, b, known, ty)?;
    b.composite(id, parts)
}

/// The constants of the parts of a value of a type.
#[cycle(constant)]
fn parts_put(
    alloc: Global,
    b: &mut Builder,
    known: &mut TypeIds,
    structs: &Structs,
    parts: &Values,
    ty: &Ty,
) -> Result<Ids, BuildRefusal>
    ensures { Does result b.new known.new (spec.parts_put structs.now ty.now 0 (map (spec.constant_of structs.now) parts.now) known.old b.old) }
{
    let mut ids = List::new(alloc);
    for k in 0..parts.len() {
        let Some(t) = part_type(alloc, structs, ty, k)? else {
            return Err(BuildRefusal::Memory);
        };
        ids.push(constant_of(alloc, b, known, structs, &parts[k], &t)?)?;
    }
    Ok(ids)
}

/// What a variable of a type begins with.
fn beginning(
    alloc: Global,
    b: &mut Builder,
    known: &mut TypeIds,
    structs: &Structs,
    g: &GlobalVar,
    type_id: u32,
) -> Result<u32, BuildRefusal>
    ensures { Does result b.new known.new (spec.beginning structs.now g.now.ty type_id g.now.value known.old b.old) }
{
    match &g.value {
        None => b.constant(PlainConst::Null(type_id)),
        Some(v) => constant_of(alloc, b, known, structs, v, &g.ty),
    }
}

fn variable_of(
    alloc: Global,
    b: &mut Builder,
    known: &mut TypeIds,
    structs: &Structs,
    g: &GlobalVar,
    type_id: u32,
) -> Result<u32, BuildRefusal>
    ensures { Does result b.new known.new (spec.variable_of structs.now g.now type_id known.old b.old) }
{
    let init = beginning(alloc, b, known, structs, g, type_id)?;
    variable_in(b, storage_class::PRIVATE, type_id, Some(init))
}

#[tactic(auto, unfolding(crate::specs::Globals::global_put))]
fn global_put(
    alloc: Global,
    b: &mut Builder,
    known: &mut TypeIds,
    structs: &Structs,
    g: &GlobalVar,
) -> Result<u32, BuildRefusal>
    ensures { Does result b.new known.new (spec.global_put structs.now g.now known.old b.old) }
{
    let id = value_type(alloc, b, known, &g.ty)?;
    variable_of(alloc, b, known, structs, g, id)
}

/// The variables of class Private that are the global variables of a program, in their order. Each begins with the value of its initialiser, and without
/// one with zeros. The structs of its type have been put before.
pub fn globals_put(
    alloc: Global,
    b: &mut Builder,
    known: &mut TypeIds,
    structs: &Structs,
    globals: &Globals,
) -> Result<Ids, BuildRefusal>
    ensures { Does result b.new known.new (spec.globals_put structs.now globals.now known.old b.old) }
{
    let mut ids = List::new(alloc);
    for k in 0..globals.len() {
        ids.push(global_put(alloc, b, known, structs, &globals[k])?)?;
    }
    Ok(ids)
}
