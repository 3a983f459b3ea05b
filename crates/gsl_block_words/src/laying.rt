//! Where the leaves of a block lie in the bytes of its buffer.

ghost use Rattle.std.specs.Prelude.{◌≡◌, ◌<◌, ◌^◌, ◌++◌, ◌∷◌, [], IfOk, OnOk, length};
ghost use Rattle.std.specs.List.{AllByRecursion};
ghost use Rattle.gsl_types.specs.Known.{AreStructs, IsSound};
ghost use Rattle.gsl_types.specs.declared.ty.Member.{Member as OneMember};
ghost use Rattle.gsl_layout.specs.Extents.{AreMembers, ArePlain};
ghost use Rattle.gsl_layout.specs.Gathers.{Places};
ghost use Rattle.gsl_layout.specs.Measures.{block as measured, misplaced_in};
ghost use Rattle.gsl_tree.specs.Laying.{layout_of, members_of, placings_of, rule_of};
ghost use Rattle.gsl_tree.specs.WellTyped.{IsBlock};

use gsl_base::{Boxed, Memory, Text};
use gsl_layout::{Laid, PlaceRefusal, Placing, Placings, Std140, Std430, lay_placed};
use gsl_tree::{Block, BlockMember};
use gsl_types::{Member, Members, Structs, Ty};
use std::alloc::Global;

/// Members of a block as they are laid out, with what is said of their places.
#[derive(Drop)]
struct Layable {
    members: Members,
    placings: Placings,
}

/// A copy of a type.
fn copy_type(alloc: Global, ty: &Ty) -> Result<Ty, Memory>
    ensures { IfOk result (λ t. t ≡ ty.now) }
{
    match ty {
        Ty::Void => Ok(Ty::Void),
        Ty::One(scalar) => Ok(Ty::One(*scalar)),
        Ty::Vector(scalar, count) => Ok(Ty::Vector(*scalar, *count)),
        Ty::Array(element, count) => {
            let element = copy_type(alloc, element.get())?;
            let element = Boxed::new(alloc, element)?;
            Ok(Ty::Array(element, *count))
        }
        Ty::Runtime(element) => {
            let element = copy_type(alloc, element.get())?;
            let element = Boxed::new(alloc, element)?;
            Ok(Ty::Runtime(element))
        }
        Ty::Struct(number) => Ok(Ty::Struct(*number)),
    }
}

/// Puts a member behind others.
fn add(alloc: Global, all: &mut Layable, member: &BlockMember) -> Result<(), Memory>
    ensures members { OnOk result (all.new.members ≡ all.old.members ++ members_of (member.now ∷ [])) }
    ensures placings { OnOk result (all.new.placings ≡ all.old.placings ++ placings_of (member.now ∷ [])) }
{
    let name = Text::from_str(alloc, member.name.as_str())?;
    let ty = copy_type(alloc, &member.ty)?;
    all.members.push(Member { name, ty })?;
    all.placings.push(Placing {
        offset: member.offset,
        align: member.align,
    })?;
    Ok(())
}

/// Members as they are laid out.
fn laying(alloc: Global, members: &[BlockMember]) -> Result<Layable, Memory>
    ensures members { IfOk result (λ all. all.members ≡ members_of members.now) }
    ensures placings { IfOk result (λ all. all.placings ≡ placings_of members.now) }
{
    let mut all = Layable {
        members: Members::new(alloc),
        placings: Placings::new(alloc),
    };
    for k in 0..members.len() {
        add(alloc, &mut all, &members[k])?;
    }
    Ok(all)
}

/// Where members lie by one of the two rules.
fn lay(alloc: Global, std140: bool, structs: &Structs, all: &Layable) -> Result<Laid, PlaceRefusal>
    requires known { AreStructs structs.now }
    requires plain { ArePlain structs.now }
    requires sound { AllByRecursion (λ (member : OneMember). IsSound (length structs.now) member.ty) all.now.members }
    requires members { AreMembers all.now.members }
    requires few { length all.now.members < 2 ^ 32 }
    ensures { Places result (misplaced_in (rule_of std140) structs.now all.now.members all.now.placings) (measured (rule_of std140) structs.now all.now.members all.now.placings) }
{
    if std140 {
        lay_placed(alloc, &Std140, structs, &all.members, &all.placings)
    } else {
        lay_placed(alloc, &Std430, structs, &all.members, &all.placings)
    }
}

/// Where the leaves of a well typed block lie (GLSL 4.50, 4.4.5; OpenGL 4.5, 7.6.2.2).
pub fn lay_block(alloc: Global, structs: &Structs, block: &Block) -> Result<Laid, Memory>
    requires known { AreStructs structs.now }
    requires plain { ArePlain structs.now }
    requires block { IsBlock structs.now block.now }
    ensures { IfOk result (λ l. l ≡ layout_of structs.now block.now) }
{
    let all = laying(alloc, block.members.as_slice())?;
    match lay(alloc, block.std140, structs, &all) {
        Ok(laid) => Ok(laid),
        Err(PlaceRefusal::Memory) => Err(Memory),
        Err(PlaceRefusal::Misplaced(_)) => unreachable!(),
        Err(PlaceRefusal::TooLarge) => unreachable!(),
    }
}
