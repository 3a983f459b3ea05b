//! The offsets of a block's members.

ghost use Rattle.std.specs.Prelude.{◌≡◌, ◌<◌, ◌^◌, ◌++◌, ◌∷◌, [], IfOk, OnOk, length};
ghost use Rattle.std.specs.List.{AllByRecursion};
ghost use Rattle.gsl_types.specs.Known.{AreStructs, IsSound};
ghost use Rattle.gsl_types.specs.declared.ty.Member.{Member as OneMember};
ghost use Rattle.gsl_layout.specs.Extents.{AreMembers, ArePlain};
ghost use Rattle.gsl_layout.specs.Gathers.{Places};
ghost use Rattle.gsl_layout.specs.Measures.{block as measured, misplaced_in};
ghost use Rattle.gsl_tree.specs.Laying.{rule_of, members_of, placings_of};
ghost use Rattle.gsl_tree.specs.WellTyped.{IsBlock};
ghost use Rattle.gsl_link_units.specs.Agreement as spec;

use gsl_base::{List, Memory, Text};
use gsl_layout::{Laid, PlaceRefusal, Placing, Placings, Std140, Std430, lay_placed};
use gsl_link_whole::copied;
use gsl_tree::{Block, BlockMember};
use gsl_types::{Member, Members, Structs};
use std::alloc::Global;

/// Members of a block as they are laid out, with what is said of their places.
#[derive(Drop)]
struct Layable {
    members: Members,
    placings: Placings,
}

/// Puts a member behind others.
fn add(alloc: Global, all: &mut Layable, member: &BlockMember) -> Result<(), Memory>
    ensures members { OnOk result (all.new.members ≡ all.old.members ++ members_of (member.now ∷ [])) }
    ensures placings { OnOk result (all.new.placings ≡ all.old.placings ++ placings_of (member.now ∷ [])) }
{
    let name = Text::from_str(alloc, member.name.as_str())?;
    let ty = copied(alloc, &member.ty)?;
    all.members.push(Member { name, ty })?;
    all.placings.push(Placing {
        offset: member.offset,
        align: member.align,
    })?;
    Ok(())
}

/// Members as they are laid out.
fn laying(alloc: Global, members: &[BlockMember]) -> Result<Layable, Memory>
    ensures members { IfOk result (λ all. all.members ≡ members_of members.now) }
    ensures placings { IfOk result (λ all. all.placings ≡ placings_of members.now) }
{
    let mut all = Layable {
        members: Members::new(alloc),
        placings: Placings::new(alloc),
    };
    for k in 0..members.len() {
        add(alloc, &mut all, &members[k])?;
    }
    Ok(all)
}

/// Where members lie by one of the two rules.
fn lay(alloc: Global, std140: bool, structs: &Structs, all: &Layable) -> Result<Laid, PlaceRefusal>
    requires known { AreStructs structs.now }
    requires plain { ArePlain structs.now }
    requires sound { AllByRecursion (λ (member : OneMember). IsSound (length structs.now) member.ty) all.now.members }
    requires members { AreMembers all.now.members }
    requires few { length all.now.members < 2 ^ 32 }
    ensures { Places result (misplaced_in (rule_of std140) structs.now all.now.members all.now.placings) (measured (rule_of std140) structs.now all.now.members all.now.placings) }
{
    if std140 {
        lay_placed(alloc, &Std140, structs, &all.members, &all.placings)
    } else {
        lay_placed(alloc, &Std430, structs, &all.members, &all.placings)
    }
}

/// The offsets of the first members of a layout.
fn first_offsets(alloc: Global, laid: &Laid, count: usize) -> Result<List<u32>, Memory>
    requires all { count ≡ length (spec.offsets laid.now) }
    requires few { count < 2 ^ 32 }
    ensures { IfOk result (λ os. os ≡ spec.offsets laid.now) }
{
    let mut all = List::new(alloc);
    for k in 0..count {
        all.push(laid.offset(k as u32))?;
    }
    Ok(all)
}

/// The offsets of a block's members, as they are computed.
pub(crate) fn offsets_of(
    alloc: Global,
    structs: &Structs,
    block: &Block,
) -> Result<List<u32>, Memory>
    requires known { AreStructs structs.now }
    requires plain { ArePlain structs.now }
    requires typed { IsBlock structs.now block.now }
    ensures { IfOk result (λ os. os ≡ spec.offsets_of structs.now block.now) }
{
    let all = laying(alloc, block.members.as_slice())?;
    if all.members.len() > u32::MAX as usize {
        return Err(Memory);
    }
    match lay(alloc, block.std140, structs, &all) {
        Ok(laid) => first_offsets(alloc, &laid, all.members.len()),
        Err(PlaceRefusal::Memory) => Err(Memory),
        Err(PlaceRefusal::TooLarge | PlaceRefusal::Misplaced(_)) => unreachable!(),
    }
}
