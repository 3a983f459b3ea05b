use gsl_base::{List, Memory, Text};
use gsl_link_structs::{Joined, join_structs};
use gsl_types::{Member, Scalar, StructType, Structs, Ty};
use std::alloc::Global;

/// A struct with one member `x`.
fn one(alloc: Global, name: &str, ty: Ty) -> Result<StructType, Memory> {
    let name = Text::from_str(alloc, name)?;
    let mut members = List::new(alloc);
    members.push(Member {
        name: Text::from_str(alloc, "x")?,
        ty,
    })?;
    Ok(StructType {
        name,
        members,
        leaves: 1,
    })
}

fn put(alloc: Global, structs: &mut Structs, name: &str, ty: Ty) -> Result<(), Memory> {
    let next = one(alloc, name, ty)?;
    structs.push(next)
}

/// The structs of the first unit.
fn two(alloc: Global) -> Result<Structs, Memory> {
    let mut structs = Structs::new(alloc);
    put(alloc, &mut structs, "S", Ty::One(Scalar::Int))?;
    put(alloc, &mut structs, "T", Ty::Struct(0))?;
    Ok(structs)
}

/// The structs of the second unit.
fn three(alloc: Global) -> Result<Structs, Memory> {
    let mut structs = Structs::new(alloc);
    put(alloc, &mut structs, "S", Ty::One(Scalar::Uint))?;
    put(alloc, &mut structs, "S", Ty::One(Scalar::Int))?;
    put(alloc, &mut structs, "T", Ty::Struct(1))?;
    Ok(structs)
}

/// A unit's structs joined to others, and whether these are their numbers.
fn joins(
    alloc: Global,
    joined: Joined,
    structs: &Structs,
    numbers: &[u32],
) -> Result<(Joined, bool), Memory> {
    let (joined, found) = join_structs(alloc, joined, structs.as_slice())?;
    Ok((joined, found.as_slice() == numbers))
}

fn first(alloc: Global) -> Result<(Joined, bool), Memory> {
    let structs = two(alloc)?;
    joins(alloc, Joined::new(alloc), &structs, &[0, 1])
}

fn second(alloc: Global, joined: Joined) -> Result<(bool, usize), Memory> {
    let structs = three(alloc)?;
    let (joined, same) = joins(alloc, joined, &structs, &[2, 0, 1])?;
    Ok((same, joined.into_structs().len()))
}

fn both(alloc: Global) -> Result<(bool, bool, usize), Memory> {
    let (joined, before) = first(alloc)?;
    let (behind, count) = second(alloc, joined)?;
    Ok((before, behind, count))
}

#[test]
fn structs_of_two_units_have_one_number_each(rt: HostRuntime) {
    assert_eq!(rt; both(rt.alloc()), Ok((true, true, 3)));
}
