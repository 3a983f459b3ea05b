//! Declarations of a unit, with types by the joined structs.

ghost use Rattle.std.specs.Prelude.{◌≡◌, IfOk, OnOk, map};
ghost use Rattle.gsl_link_units.specs.Declarations as spec;

use crate::types::retyped;
use gsl_base::{List, Memory};
use gsl_tree::{
    Block, BlockMember, BlockMembers, Blocks, GlobalVar, Globals, Interface, Interfaces, Params,
    Prototype, Prototypes, TypedUnit,
};
use gsl_types::{Direction, Ty};
use std::alloc::Global;
use std::mem::replace;

fn retype_global(alloc: Global, numbers: &[u32], g: &mut GlobalVar) -> Result<(), Memory>
    ensures { OnOk result (g.new ≡ spec.retyped_global numbers.now g.old) }
{
    g.ty = retyped(alloc, numbers, &g.ty)?;
    Ok(())
}

/// Global variables by the new numbers of structs.
fn retyped_globals(alloc: Global, numbers: &[u32], globals: Globals) -> Result<Globals, Memory>
    ensures { IfOk result (λ gs. gs ≡ map (spec.retyped_global numbers.now) globals) }
{
    let mut all = globals.into_vec();
    for k in 0..all.len() {
        retype_global(alloc, numbers, &mut all[k])?;
    }
    Ok(List::from_vec(all))
}

fn retype_interface(alloc: Global, numbers: &[u32], i: &mut Interface) -> Result<(), Memory>
    ensures { OnOk result (i.new ≡ spec.retyped_interface numbers.now i.old) }
{
    i.ty = retyped(alloc, numbers, &i.ty)?;
    Ok(())
}

/// Inputs and outputs by the new numbers of structs.
fn retyped_interfaces(
    alloc: Global,
    numbers: &[u32],
    interfaces: Interfaces,
) -> Result<Interfaces, Memory>
    ensures { IfOk result (λ is. is ≡ map (spec.retyped_interface numbers.now) interfaces) }
{
    let mut all = interfaces.into_vec();
    for k in 0..all.len() {
        retype_interface(alloc, numbers, &mut all[k])?;
    }
    Ok(List::from_vec(all))
}

fn retype_member(alloc: Global, numbers: &[u32], member: &mut BlockMember) -> Result<(), Memory>
    ensures { OnOk result (member.new ≡ spec.retyped_block_member numbers.now member.old) }
{
    member.ty = retyped(alloc, numbers, &member.ty)?;
    Ok(())
}

fn retyped_members(
    alloc: Global,
    numbers: &[u32],
    members: BlockMembers,
) -> Result<BlockMembers, Memory>
    ensures { IfOk result (λ ms. ms ≡ map (spec.retyped_block_member numbers.now) members) }
{
    let mut all = members.into_vec();
    for k in 0..all.len() {
        retype_member(alloc, numbers, &mut all[k])?;
    }
    Ok(List::from_vec(all))
}

fn retype_block(alloc: Global, numbers: &[u32], block: &mut Block) -> Result<(), Memory>
    ensures { OnOk result (block.new ≡ spec.retyped_block numbers.now block.old) }
{
    let members = replace(&mut block.members, List::new(alloc));
    block.members = retyped_members(alloc, numbers, members)?;
    Ok(())
}

/// Blocks by the new numbers of structs.
fn retyped_blocks(alloc: Global, numbers: &[u32], blocks: Blocks) -> Result<Blocks, Memory>
    ensures { IfOk result (λ bs. bs ≡ map (spec.retyped_block numbers.now) blocks) }
{
    let mut all = blocks.into_vec();
    for k in 0..all.len() {
        retype_block(alloc, numbers, &mut all[k])?;
    }
    Ok(List::from_vec(all))
}

fn retype_param(alloc: Global, numbers: &[u32], param: &mut (Direction, Ty)) -> Result<(), Memory>
    ensures { OnOk result (param.new ≡ spec.retyped_param numbers.now param.old) }
{
    param.1 = retyped(alloc, numbers, &param.1)?;
    Ok(())
}

fn retyped_params(alloc: Global, numbers: &[u32], params: Params) -> Result<Params, Memory>
    ensures { IfOk result (λ ps. ps ≡ map (spec.retyped_param numbers.now) params) }
{
    let mut all = params.into_vec();
    for k in 0..all.len() {
        retype_param(alloc, numbers, &mut all[k])?;
    }
    Ok(List::from_vec(all))
}

fn retype_prototype(alloc: Global, numbers: &[u32], p: &mut Prototype) -> Result<(), Memory>
    ensures { OnOk result (p.new ≡ spec.retyped_prototype numbers.now p.old) }
{
    p.result = retyped(alloc, numbers, &p.result)?;
    let params = replace(&mut p.params, List::new(alloc));
    p.params = retyped_params(alloc, numbers, params)?;
    Ok(())
}

/// Heads of functions by the new numbers of structs.
fn retyped_prototypes(
    alloc: Global,
    numbers: &[u32],
    prototypes: Prototypes,
) -> Result<Prototypes, Memory>
    ensures { IfOk result (λ ps. ps ≡ map (spec.retyped_prototype numbers.now) prototypes) }
{
    let mut all = prototypes.into_vec();
    for k in 0..all.len() {
        retype_prototype(alloc, numbers, &mut all[k])?;
    }
    Ok(List::from_vec(all))
}

/// The declarations of a unit by the new numbers of its structs.
pub fn retype_unit(alloc: Global, numbers: &[u32], unit: &mut TypedUnit) -> Result<(), Memory>
    ensures { OnOk result (unit.new ≡ (spec.side_of numbers.now unit.old).unit) }
{
    let globals = replace(&mut unit.globals, List::new(alloc));
    unit.globals = retyped_globals(alloc, numbers, globals)?;
    let blocks = replace(&mut unit.blocks, List::new(alloc));
    unit.blocks = retyped_blocks(alloc, numbers, blocks)?;
    let interfaces = replace(&mut unit.interfaces, List::new(alloc));
    unit.interfaces = retyped_interfaces(alloc, numbers, interfaces)?;
    let prototypes = replace(&mut unit.prototypes, List::new(alloc));
    unit.prototypes = retyped_prototypes(alloc, numbers, prototypes)?;
    Ok(())
}
