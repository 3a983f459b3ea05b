//! Members of structs and blocks by their names.

ghost use Rattle.std.specs.Prelude.{◌≡◌, ◌≤◌, length, take, IfOk};
ghost use Rattle.gsl_makers.specs.Members as spec;

use gsl_base::{Memory, Text};
use gsl_tree::{BlockMember, Blocks};
use gsl_types::{Member, Structs, Ty};
use gsl_typing::copy;
use std::alloc::Global;

/// A member: its number, and its type.
pub type Found = (u32, Ty);

/// As many as a struct or block may have.
fn at_most<T>(items: &[T]) -> &[T]
    ensures is { result.now ≡ take 16383 items.now }
    ensures few { length result.now ≤ 16383 }
{
    if items.len() > 16383 {
        &items[..16383]
    } else {
        items
    }
}

/// The first member of a name.
fn among(alloc: Global, members: &[Member], name: &Text) -> Result<Option<Found>, Memory>
    requires few { length members.now ≤ 16383 }
    ensures { IfOk result (λ found. found ≡ spec.member_from 0 members.now name.now) }
{
    for k in 0..members.len() {
        if members[k].name == *name {
            return Ok(Some((k as u32, copy(alloc, &members[k].ty)?)));
        }
    }
    Ok(None)
}

/// The member of a name of the struct of a number.
#[tactic(auto, unfolding(crate::specs::Members::struct_member))]
pub fn struct_member(
    alloc: Global,
    structs: &Structs,
    number: u32,
    name: &Text,
) -> Result<Option<Found>, Memory>
    ensures { IfOk result (λ found. found ≡ spec.struct_member structs.now number name.now) }
{
    if number as usize >= structs.len() {
        return Ok(None);
    }
    let members = structs[number as usize].members.as_slice();
    among(alloc, at_most(members), name)
}

/// The first member of a name in a block.
fn among_block(alloc: Global, members: &[BlockMember], name: &Text) -> Result<Option<Found>, Memory>
    requires few { length members.now ≤ 16383 }
    ensures { IfOk result (λ found. found ≡ spec.block_member_from 0 members.now name.now) }
{
    for k in 0..members.len() {
        if members[k].name == *name {
            return Ok(Some((k as u32, copy(alloc, &members[k].ty)?)));
        }
    }
    Ok(None)
}

/// The member of a name of the block of a number.
#[tactic(auto, unfolding(crate::specs::Members::block_member_of))]
pub fn block_member_of(
    alloc: Global,
    blocks: &Blocks,
    number: u32,
    name: &Text,
) -> Result<Option<Found>, Memory>
    ensures { IfOk result (λ found. found ≡ spec.block_member_of blocks.now number name.now) }
{
    if number as usize >= blocks.len() {
        return Ok(None);
    }
    let members = blocks[number as usize].members.as_slice();
    among_block(alloc, at_most(members), name)
}
