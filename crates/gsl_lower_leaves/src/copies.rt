//! Copies and equality, leaf by leaf.

ghost use Rattle.std.specs.Prelude.{◌≡◌, ◌∷◌, ◌++◌, ◌<◌, [], IfOk, Some, drop, length, slice_get};
ghost use Rattle.gsl_lower_values.specs.Building.{Does};
ghost use Rattle.gsl_lower_leaves.specs.Copies as spec;

use crate::leaf::Leaf;
use gsl_base::{List, Memory};
use gsl_instr::enumerant::storage_class;
use gsl_instr::op;
use gsl_lower_places::{Part, Parts, extracted, loaded, put_at};
use gsl_lower_values::{Operand, binary, give, logical, scalar_constant, type_of};
use gsl_spv::{BuildRefusal, Builder};
use gsl_tree::LogicOp;
use gsl_types::Scalar;
use gsl_values::BinaryOp;
use std::alloc::Global;

/// Parts, and others within them.
fn within(alloc: Global, parts: &[Part], more: &[Part]) -> Result<Parts, Memory>
    ensures { IfOk result (λ l. l ≡ parts.now ++ more.now) }
{
    let mut all = List::from_slice(alloc, parts)?;
    all.extend_from_slice(more)?;
    Ok(all)
}

/// A leaf by its place.
fn leaf_at(leaves: &[Leaf], k: usize) -> &Leaf
    requires { k < length leaves.now }
    ensures { slice_get leaves.now k ≡ Some result.now }
{
    &leaves[k]
}

/// A leaf of what parts of a block's variable lead to is copied to the same leaf of a function's variable.
#[tactic(auto, unfolding(crate::specs::Copies::copied_out))]
fn copied_out(
    alloc: Global,
    b: &mut Builder,
    block: u32,
    class: u32,
    parts: &[Part],
    variable: u32,
    one: &Leaf,
) -> Result<(), BuildRefusal>
    ensures { Does result b.new (spec.copied_out block class parts.now variable one.now b.old) }
{
    let from = within(alloc, parts, one.path.as_slice())?;
    let v = loaded(alloc, b, block, class, one.shape, from.as_slice())?;
    put_at(
        alloc,
        b,
        variable,
        storage_class::FUNCTION,
        one.shape,
        one.path.as_slice(),
        v,
    )
}

/// All leaves are copied out.
fn all_out(
    alloc: Global,
    b: &mut Builder,
    block: u32,
    class: u32,
    parts: &[Part],
    variable: u32,
    leaves: &[Leaf],
) -> Result<(), BuildRefusal>
    ensures { Does result b.new (spec.each (spec.copied_out block class parts.now variable) leaves.now b.old) }
{
    for k in 0..leaves.len() {
        copied_out(alloc, b, block, class, parts, variable, leaf_at(leaves, k))?;
    }
    Ok(())
}

/// The value in a block whose leaves these are, by way of a function's variable of its type.
#[tactic(auto, unfolding(crate::specs::Copies::read_whole))]
pub fn read_whole(
    alloc: Global,
    b: &mut Builder,
    block: u32,
    class: u32,
    parts: &[Part],
    variable: u32,
    ty: u32,
    leaves: &[Leaf],
) -> Result<u32, BuildRefusal>
    ensures { Does result b.new (spec.read_whole block class parts.now variable ty leaves.now b.old) }
{
    all_out(alloc, b, block, class, parts, variable, leaves)?;
    give(alloc, b, op::LOAD, &[variable], ty)
}

/// A leaf of a value is copied to the same leaf of what parts of a block's variable lead to.
#[tactic(auto, unfolding(crate::specs::Copies::copied_in))]
fn copied_in(
    alloc: Global,
    b: &mut Builder,
    block: u32,
    class: u32,
    parts: &[Part],
    value: u32,
    one: &Leaf,
) -> Result<(), BuildRefusal>
    ensures { Does result b.new (spec.copied_in block class parts.now value one.now b.old) }
{
    let ty = type_of(b, one.shape)?;
    let v = extracted(alloc, b, value, ty, one.path.as_slice())?;
    let to = within(alloc, parts, one.path.as_slice())?;
    put_at(alloc, b, block, class, one.shape, to.as_slice(), v)
}

/// A value whose leaves these are is stored in a block.
#[tactic(auto, unfolding(crate::specs::Copies::store_whole))]
pub fn store_whole(
    alloc: Global,
    b: &mut Builder,
    block: u32,
    class: u32,
    parts: &[Part],
    value: u32,
    leaves: &[Leaf],
) -> Result<(), BuildRefusal>
    ensures { Does result b.new (spec.store_whole block class parts.now value leaves.now b.old) }
{
    for k in 0..leaves.len() {
        copied_in(alloc, b, block, class, parts, value, leaf_at(leaves, k))?;
    }
    Ok(())
}

/// Whether two values are equal in a leaf, or unequal.
#[tactic(auto, unfolding(crate::specs::Copies::compared))]
fn compared(
    alloc: Global,
    b: &mut Builder,
    which: BinaryOp,
    left: u32,
    right: u32,
    one: &Leaf,
) -> Result<u32, BuildRefusal>
    ensures { Does result b.new (spec.compared which left right one.now b.old) }
{
    let ty = type_of(b, one.shape)?;
    let x = extracted(alloc, b, left, ty, one.path.as_slice())?;
    let y = extracted(alloc, b, right, ty, one.path.as_slice())?;
    let x = Operand {
        shape: one.shape,
        id: x,
    };
    let y = Operand {
        shape: one.shape,
        id: y,
    };
    binary(alloc, b, which, x, y)
}

fn joined_by(which: BinaryOp) -> LogicOp
    ensures { result ≡ spec.joined_by which }
{
    match which {
        BinaryOp::Unequal => LogicOp::Or,
        _ => LogicOp::And,
    }
}

fn of_none(which: BinaryOp) -> u32
    ensures { result ≡ spec.of_none which }
{
    match which {
        BinaryOp::Unequal => 0,
        _ => 1,
    }
}

/// What is so far, and what comes of one more leaf.
#[tactic(auto, unfolding(crate::specs::Copies::one_more))]
fn one_more(
    alloc: Global,
    b: &mut Builder,
    which: BinaryOp,
    left: u32,
    right: u32,
    so_far: u32,
    one: &Leaf,
) -> Result<u32, BuildRefusal>
    ensures { Does result b.new (spec.one_more which left right so_far one.now b.old) }
{
    let x = compared(alloc, b, which, left, right, one)?;
    logical(alloc, b, joined_by(which), so_far, x)
}

/// Whether two values are equal whose leaves these are, or unequal.
#[tactic(auto, unfolding(crate::specs::Copies::compared_whole))]
pub fn compared_whole(
    alloc: Global,
    b: &mut Builder,
    which: BinaryOp,
    left: u32,
    right: u32,
    leaves: &[Leaf],
) -> Result<u32, BuildRefusal>
    ensures { Does result b.new (spec.compared_whole which left right leaves.now b.old) }
{
    if leaves.is_empty() {
        return scalar_constant(b, Scalar::Bool, of_none(which));
    }
    let first = compared(alloc, b, which, left, right, leaf_at(leaves, 0))?;
    all_compared(alloc, b, which, left, right, first, leaves)
}

/// What is so far of the first leaf, and what comes of the others.
fn all_compared(
    alloc: Global,
    b: &mut Builder,
    which: BinaryOp,
    left: u32,
    right: u32,
    first: u32,
    leaves: &[Leaf],
) -> Result<u32, BuildRefusal>
    ensures { Does result b.new (spec.all_compared which left right first (drop 1 leaves.now) b.old) }
{
    let mut so_far = first;
    for k in 1..leaves.len() {
        so_far = one_more(alloc, b, which, left, right, so_far, leaf_at(leaves, k))?;
    }
    Ok(so_far)
}
