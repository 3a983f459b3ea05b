//! How many bytes the buffer of a block must have.

ghost use Rattle.std.specs.Prelude.{◌≡◌, ◌<◌, ◌^◌, ◌++◌, ◌∷◌, [], IfOk, IsTrue, None, OnOk, false, true, is_some, length};
ghost use Rattle.std.specs.List.{AllByRecursion};
ghost use Rattle.gsl_types.specs.Known.{AreStructs, IsSound};
ghost use Rattle.gsl_types.specs.declared.ty.Member.{Member as OneMember};
ghost use Rattle.gsl_layout.specs.Extents.{AreMembers, ArePlain};
ghost use Rattle.gsl_layout.specs.Gathers.{Places};
ghost use Rattle.gsl_layout.specs.Measures.{block as measured, misplaced_in};
ghost use Rattle.gsl_tree.specs.Laying.{rule_of, members_of, placings_of};
ghost use Rattle.gsl_check_blocks.specs.Stands.{Needs, Stand};

use gsl_base::{Memory, Text};
use gsl_layout::{Laid, PlaceRefusal, Placing, Placings, Std140, Std430, lay_placed};
use gsl_tree::{Block, BlockMember};
use gsl_types::{Member, Members, Structs};
use gsl_typing::copy;
use std::alloc::Global;

/// Members of a block as they are laid out, with what is said of their places.
#[derive(Drop)]
struct Layable {
    members: Members,
    placings: Placings,
}

/// Puts a member behind others.
fn add(alloc: Global, all: &mut Layable, member: &BlockMember) -> Result<(), Memory>
    ensures members { OnOk result (all.new.members ≡ all.old.members ++ members_of (member.now ∷ [])) }
    ensures placings { OnOk result (all.new.placings ≡ all.old.placings ++ placings_of (member.now ∷ [])) }
{
    let name = Text::from_str(alloc, member.name.as_str())?;
    let ty = copy(alloc, &member.ty)?;
    all.members.push(Member { name, ty })?;
    all.placings.push(Placing {
        offset: member.offset,
        align: member.align,
    })?;
    Ok(())
}

/// Members as they are laid out.
fn laying(alloc: Global, members: &[BlockMember]) -> Result<Layable, Memory>
    ensures members { IfOk result (λ all. all.members ≡ members_of members.now) }
    ensures placings { IfOk result (λ all. all.placings ≡ placings_of members.now) }
{
    let mut all = Layable {
        members: Members::new(alloc),
        placings: Placings::new(alloc),
    };
    for k in 0..members.len() {
        add(alloc, &mut all, &members[k])?;
    }
    Ok(all)
}

/// Where members lie by one of the two rules.
fn lay(alloc: Global, std140: bool, structs: &Structs, all: &Layable) -> Result<Laid, PlaceRefusal>
    requires known { AreStructs structs.now }
    requires plain { ArePlain structs.now }
    requires sound { AllByRecursion (λ (member : OneMember). IsSound (length structs.now) member.ty) all.now.members }
    requires members { AreMembers all.now.members }
    requires few { length all.now.members < 2 ^ 32 }
    ensures { Places result (misplaced_in (rule_of std140) structs.now all.now.members all.now.placings) (measured (rule_of std140) structs.now all.now.members all.now.placings) }
{
    if std140 {
        lay_placed(alloc, &Std140, structs, &all.members, &all.placings)
    } else {
        lay_placed(alloc, &Std430, structs, &all.members, &all.placings)
    }
}

/// How many bytes the buffer of a block must have, unless the block is too large.
pub(crate) fn need_of(
    alloc: Global,
    structs: &Structs,
    block: &Block,
) -> Result<Option<u32>, Memory>
    requires known { AreStructs structs.now }
    requires plain { ArePlain structs.now }
    requires stand { Stand block.now.std140 structs.now true block.now.members }
    ensures { IfOk result (λ need. Needs need structs.now block.now) }
{
    if block.members.is_empty() {
        return Ok(Some(0));
    }
    let all = laying(alloc, block.members.as_slice())?;
    if all.members.len() > u32::MAX as usize {
        return Err(Memory);
    }
    match lay(alloc, block.std140, structs, &all) {
        Ok(laid) => Ok(Some(laid.need())),
        Err(PlaceRefusal::TooLarge) => Ok(None),
        Err(PlaceRefusal::Misplaced(_)) => unreachable!(),
        Err(PlaceRefusal::Memory) => Err(Memory),
    }
}
