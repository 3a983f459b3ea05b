//! The types of values.

ghost use Rattle.gsl_lower_values.specs.Building as steps;
ghost use Rattle.gsl_lower_types.specs.Known as puts;
ghost use Rattle.gsl_lower_types.specs.Known.{Does};
ghost use Rattle.gsl_lower_types.specs.Values as spec;

use crate::known::{keep, known_type, number_of};
use gsl_base::List;
use gsl_lower_holders::{Ids, TypeIds, find_type};
use gsl_lower_values::{scalar_constant, scalar_type, type_of};
use gsl_spv::{BuildRefusal, Builder, PlainType};
use gsl_tree::{
    Block, BlockMember, BlockMembers, Blocks, Function, Functions, GlobalVar, Globals, Params,
    Program, Prototype, Prototypes,
};
use gsl_types::{Direction, Member, Members, Scalar, StructType, Structs, Ty, Types};
use std::alloc::Global;

/// A new type of arrays without a stride.
fn array_of(b: &mut Builder, element: u32, count: u32) -> Result<u32, BuildRefusal>
    ensures { steps.Does result b.new (spec.array_of element count b.old) }
{
    let length = scalar_constant(b, Scalar::Uint, count)?;
    b.array_type(element, length, None)
}

/// The id of the type of the values of a type, which is put where it is not known: of `void`, of scalars and vectors, and of arrays with their
/// parts. Structs have been put before: `Memory` comes for one that was not. Of a runtime array it is the type of the elements.
#[tactic(auto, using(crate::proofs::Steps::value_step))]
pub fn value_type(
    alloc: Global,
    b: &mut Builder,
    known: &mut TypeIds,
    ty: &Ty,
) -> Result<u32, BuildRefusal>
    ensures { Does result b.new known.new (spec.value_type ty.now known.old b.old) }
{
    match ty {
        Ty::Void => b.plain_type(PlainType::Void),
        Ty::One(s) => scalar_type(b, *s),
        Ty::Vector(s, n) => type_of(b, (*s, *n)),
        Ty::Array(element, count) => {
            if let Some(id) = find_type(known.as_slice(), ty) {
                return Ok(id);
            }
            let element = value_type(alloc, b, known, element.get())?;
            let id = array_of(b, element, *count)?;
            keep(alloc, known, ty, id)?;
            Ok(id)
        }
        Ty::Runtime(element) => value_type(alloc, b, known, element.get()),
        Ty::Struct(_) => known_type(b, known, ty),
    }
}

#[tactic(auto, unfolding(crate::specs::Values::member_type))]
fn member_type(
    alloc: Global,
    b: &mut Builder,
    known: &mut TypeIds,
    member: &Member,
) -> Result<u32, BuildRefusal>
    ensures { Does result b.new known.new (spec.member_type member.now known.old b.old) }
{
    value_type(alloc, b, known, &member.ty)
}

fn members_types(
    alloc: Global,
    b: &mut Builder,
    known: &mut TypeIds,
    members: &Members,
) -> Result<Ids, BuildRefusal>
    ensures { Does result b.new known.new (puts.each spec.member_type members.now known.old b.old) }
{
    let mut ids = List::new(alloc);
    for k in 0..members.len() {
        ids.push(member_type(alloc, b, known, &members[k])?)?;
    }
    Ok(ids)
}

fn struct_of(
    b: &mut Builder,
    known: &mut TypeIds,
    number: u32,
    members: &[u32],
) -> Result<(), BuildRefusal>
    ensures { Does result b.new known.new (spec.struct_of number members.now known.old b.old) }
{
    let id = b.struct_type(members)?;
    known.push((Ty::Struct(number), id))?;
    Ok(())
}

/// The type of a struct, whose structs have been put before.
#[tactic(auto, unfolding(crate::specs::Values::struct_type))]
fn struct_type(
    alloc: Global,
    b: &mut Builder,
    known: &mut TypeIds,
    number: u32,
    s: &StructType,
) -> Result<(), BuildRefusal>
    ensures { Does result b.new known.new (spec.struct_type number s.now known.old b.old) }
{
    let members = members_types(alloc, b, known, &s.members)?;
    struct_of(b, known, number, members.as_slice())
}

/// The types of structs, in their order.
fn struct_types(
    alloc: Global,
    b: &mut Builder,
    known: &mut TypeIds,
    structs: &Structs,
) -> Result<(), BuildRefusal>
    ensures { Does result b.new known.new (spec.struct_types 0 structs.now known.old b.old) }
{
    for k in 0..structs.len() {
        let number = number_of(k)?;
        struct_type(alloc, b, known, number, &structs[k])?;
    }
    Ok(())
}

/// A type is put, whatever its id.
fn only(alloc: Global, b: &mut Builder, known: &mut TypeIds, ty: &Ty) -> Result<(), BuildRefusal>
    ensures { Does result b.new known.new (puts.only (spec.value_type ty.now) known.old b.old) }
{
    value_type(alloc, b, known, ty)?;
    Ok(())
}

#[tactic(auto, unfolding(crate::specs::Values::global_type))]
fn global_type(
    alloc: Global,
    b: &mut Builder,
    known: &mut TypeIds,
    g: &GlobalVar,
) -> Result<(), BuildRefusal>
    ensures { Does result b.new known.new (spec.global_type g.now known.old b.old) }
{
    only(alloc, b, known, &g.ty)
}

fn globals_types(
    alloc: Global,
    b: &mut Builder,
    known: &mut TypeIds,
    globals: &Globals,
) -> Result<(), BuildRefusal>
    ensures { Does result b.new known.new (puts.all spec.global_type globals.now known.old b.old) }
{
    for k in 0..globals.len() {
        global_type(alloc, b, known, &globals[k])?;
    }
    Ok(())
}

#[tactic(auto, unfolding(crate::specs::Values::block_member_type))]
fn block_member_type(
    alloc: Global,
    b: &mut Builder,
    known: &mut TypeIds,
    member: &BlockMember,
) -> Result<(), BuildRefusal>
    ensures { Does result b.new known.new (spec.block_member_type member.now known.old b.old) }
{
    only(alloc, b, known, &member.ty)
}

fn block_members_types(
    alloc: Global,
    b: &mut Builder,
    known: &mut TypeIds,
    members: &BlockMembers,
) -> Result<(), BuildRefusal>
    ensures { Does result b.new known.new (puts.all spec.block_member_type members.now known.old b.old) }
{
    for k in 0..members.len() {
        block_member_type(alloc, b, known, &members[k])?;
    }
    Ok(())
}

#[tactic(auto, unfolding(crate::specs::Values::block_types))]
fn block_types(
    alloc: Global,
    b: &mut Builder,
    known: &mut TypeIds,
    block: &Block,
) -> Result<(), BuildRefusal>
    ensures { Does result b.new known.new (spec.block_types block.now known.old b.old) }
{
    block_members_types(alloc, b, known, &block.members)
}

fn blocks_types(
    alloc: Global,
    b: &mut Builder,
    known: &mut TypeIds,
    blocks: &Blocks,
) -> Result<(), BuildRefusal>
    ensures { Does result b.new known.new (puts.all spec.block_types blocks.now known.old b.old) }
{
    for k in 0..blocks.len() {
        block_types(alloc, b, known, &blocks[k])?;
    }
    Ok(())
}

#[tactic(auto, unfolding(crate::specs::Values::parameter_type))]
fn parameter_type(
    alloc: Global,
    b: &mut Builder,
    known: &mut TypeIds,
    parameter: &(Direction, Ty),
) -> Result<(), BuildRefusal>
    ensures { Does result b.new known.new (spec.parameter_type parameter.now known.old b.old) }
{
    only(alloc, b, known, &parameter.1)
}

fn parameters_types(
    alloc: Global,
    b: &mut Builder,
    known: &mut TypeIds,
    params: &Params,
) -> Result<(), BuildRefusal>
    ensures { Does result b.new known.new (puts.all spec.parameter_type params.now known.old b.old) }
{
    for k in 0..params.len() {
        parameter_type(alloc, b, known, &params[k])?;
    }
    Ok(())
}

#[tactic(auto, unfolding(crate::specs::Values::prototype_types))]
fn prototype_types(
    alloc: Global,
    b: &mut Builder,
    known: &mut TypeIds,
    prototype: &Prototype,
) -> Result<(), BuildRefusal>
    ensures { Does result b.new known.new (spec.prototype_types prototype.now known.old b.old) }
{
    value_type(alloc, b, known, &prototype.result)?;
    parameters_types(alloc, b, known, &prototype.params)
}

fn prototypes_types(
    alloc: Global,
    b: &mut Builder,
    known: &mut TypeIds,
    prototypes: &Prototypes,
) -> Result<(), BuildRefusal>
    ensures { Does result b.new known.new (puts.all spec.prototype_types prototypes.now known.old b.old) }
{
    for k in 0..prototypes.len() {
        prototype_types(alloc, b, known, &prototypes[k])?;
    }
    Ok(())
}

#[tactic(auto, unfolding(crate::specs::Values::local_type))]
fn local_type(
    alloc: Global,
    b: &mut Builder,
    known: &mut TypeIds,
    ty: &Ty,
) -> Result<(), BuildRefusal>
    ensures { Does result b.new known.new (spec.local_type ty.now known.old b.old) }
{
    only(alloc, b, known, ty)
}

fn locals_types(
    alloc: Global,
    b: &mut Builder,
    known: &mut TypeIds,
    locals: &Types,
) -> Result<(), BuildRefusal>
    ensures { Does result b.new known.new (puts.all spec.local_type locals.now known.old b.old) }
{
    for k in 0..locals.len() {
        local_type(alloc, b, known, &locals[k])?;
    }
    Ok(())
}

#[tactic(auto, unfolding(crate::specs::Values::function_types))]
fn function_types(
    alloc: Global,
    b: &mut Builder,
    known: &mut TypeIds,
    function: &Function,
) -> Result<(), BuildRefusal>
    ensures { Does result b.new known.new (spec.function_types function.now known.old b.old) }
{
    locals_types(alloc, b, known, &function.locals)
}

fn functions_types(
    alloc: Global,
    b: &mut Builder,
    known: &mut TypeIds,
    functions: &Functions,
) -> Result<(), BuildRefusal>
    ensures { Does result b.new known.new (puts.all spec.function_types functions.now known.old b.old) }
{
    for k in 0..functions.len() {
        function_types(alloc, b, known, &functions[k])?;
    }
    Ok(())
}

/// The types of a program's values: each of its structs once, and what it declares for variables, members of blocks, parameters, results and
/// local variables. The arrays and structs among them are known then, each by its id.
#[tactic(auto, unfolding(crate::specs::Values::program_types))]
pub fn program_types(
    alloc: Global,
    b: &mut Builder,
    known: &mut TypeIds,
    program: &Program,
) -> Result<(), BuildRefusal>
    ensures { Does result b.new known.new (spec.program_types program.now known.old b.old) }
{
    struct_types(alloc, b, known, &program.structs)?;
    globals_types(alloc, b, known, &program.globals)?;
    blocks_types(alloc, b, known, &program.blocks)?;
    prototypes_types(alloc, b, known, &program.prototypes)?;
    functions_types(alloc, b, known, &program.functions)
}
