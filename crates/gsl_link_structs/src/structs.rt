//! The struct types of many units, each once.

ghost use Rattle.std.specs.Prelude.{◌≡◌, ◌∷◌, ◌++◌, [], IfOk, map, if◌then◌else◌};
ghost use Rattle.gsl_link_units.specs.Structs as spec;

use crate::key::Key;
use gsl_base::{List, Memory, Text};
use gsl_link_units::retyped;
use gsl_types::{Member, Members, StructType, Structs};
use indexmap::IndexSet;
use std::alloc::Global;
use std::marker::Model;

fn retyped_member(alloc: Global, numbers: &[u32], member: &Member) -> Result<Member, Memory>
    ensures { IfOk result (λ m. m ≡ spec.retyped_member numbers.now member.now) }
{
    let name = Text::from_str(alloc, member.name.as_str())?;
    let ty = retyped(alloc, numbers, &member.ty)?;
    Ok(Member { name, ty })
}

fn retyped_members(alloc: Global, numbers: &[u32], members: &[Member]) -> Result<Members, Memory>
    ensures { IfOk result (λ ms. ms ≡ map (spec.retyped_member numbers.now) members.now) }
{
    let mut all = List::new(alloc);
    for k in 0..members.len() {
        all.push(retyped_member(alloc, numbers, &members[k])?)?;
    }
    Ok(all)
}

/// A struct with the new numbers of those before it.
fn retyped_struct(alloc: Global, numbers: &[u32], s: &StructType) -> Result<StructType, Memory>
    ensures { IfOk result (λ t. t ≡ spec.retyped_struct numbers.now s.now) }
{
    let name = Text::from_str(alloc, s.name.as_str())?;
    let members = retyped_members(alloc, numbers, s.members.as_slice())?;
    Ok(StructType {
        name,
        members,
        leaves: s.leaves,
    })
}

/// The structs with one at their end, where it is new.
fn put_new(new: bool, structs: Structs, s: StructType) -> Result<Structs, Memory>
    ensures { IfOk result (λ all. all ≡ (if new then structs ++ s ∷ [] else structs)) }
{
    let mut structs = structs;
    if new {
        structs.push(s)?;
    }
    Ok(structs)
}

/// Struct types, each once, with their words in a table. Contracts see the structs.
#[derive(Drop)]
pub struct Joined {
    structs: Structs,
    keys: IndexSet<Key>,
}

impl Model for Joined {
    ghost use Rattle.std.specs.Prelude.{◌≡◌, List as Plain, map};
    ghost use Rattle.std.specs.Coded.{coded_list};
    ghost use Rattle.gsl_types.specs.contracts.ty.StructType.{the_row};
    ghost use Rattle.gsl_types.specs.declared.ty.StructType.{StructType as OneStruct};
    ghost use Rattle.gsl_link_structs.specs.Keys.{struct_words};

    ghost Value = { Plain OneStruct };

    ghost coded = { coded_list the_row.coded };

    ghost view = { λ j. j.structs };

    ghost invariant = { λ j. j.keys.keys ≡ map struct_words j.structs };
}

impl Joined {
    /// No struct.
    pub fn new(alloc: Global) -> Joined
        ensures { result ≡ [] }
    {
        Joined {
            structs: List::new(alloc),
            keys: IndexSet::new(alloc),
        }
    }

    /// The structs.
    pub fn into_structs(self) -> Structs
        ensures { result ≡ self }
    {
        let Joined { structs, .. } = self;
        structs
    }

    /// The structs with one at their end, where none of them is the same; and its number.
    fn with(self, alloc: Global, s: StructType) -> Result<(Joined, u32), Memory>
        ensures joined { IfOk result (λ r. r.0 ≡ spec.with_struct self s) }
        ensures number { IfOk result (λ r. r.1 ≡ spec.struct_number self s) }
    {
        let Joined { structs, mut keys } = self;
        let key = Key::of_struct(alloc, &s)?;
        let (number, new) = keys.insert_full(key)?;
        if number > u32::MAX as usize {
            return Err(Memory);
        }
        let structs = put_new(new, structs, s)?;
        Ok((Joined { structs, keys }, number as u32))
    }
}

/// Structs with the next one of a unit, and the numbers with its.
fn join_next(
    alloc: Global,
    joined: Joined,
    numbers: List<u32>,
    s: &StructType,
) -> Result<(Joined, List<u32>), Memory>
    ensures joined { IfOk result (λ r. r.0 ≡ spec.with_struct joined (spec.retyped_struct numbers s.now)) }
    ensures numbers { IfOk result (λ r. r.1 ≡ numbers ++ spec.struct_number joined (spec.retyped_struct numbers s.now) ∷ []) }
{
    let mut numbers = numbers;
    let next = retyped_struct(alloc, numbers.as_slice(), s)?;
    let (joined, number) = joined.with(alloc, next)?;
    numbers.push(number)?;
    Ok((joined, numbers))
}

/// The structs of a unit put behind others, each where none there is the same, and their numbers.
pub fn join_structs(
    alloc: Global,
    joined: Joined,
    structs: &[StructType],
) -> Result<(Joined, List<u32>), Memory>
    ensures { IfOk result (λ r. r ≡ spec.with_structs joined [] structs.now) }
{
    let mut joined = joined;
    let mut numbers = List::new(alloc);
    for k in 0..structs.len() {
        (joined, numbers) = join_next(alloc, joined, numbers, &structs[k])?;
    }
    Ok((joined, numbers))
}
