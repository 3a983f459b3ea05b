//! How parts are used: what may be read, what may be written, and what is copied whole.

ghost use Rattle.std.specs.Prelude.{◌≡◌, nat_eq, slice_get};
ghost use Rattle.std.specs.List.{list_any};
ghost use Rattle.gsl_base.specs.Checked.{Gives};
ghost use Rattle.gsl_types.specs.Known.{AreStructs};
ghost use Rattle.gsl_types.specs.Leaves as leaves_spec;
ghost use Rattle.gsl_tree.specs.Around.{block_member, is_writeonly as writeonly_of, may_write_member as may_write_of};
ghost use Rattle.gsl_tree.specs.Expressions as tree_spec;
ghost use Rattle.gsl_tree.specs.Paths as paths;
ghost use Rattle.gsl_values.specs.Vectors.{components as picked};
ghost use Rattle.gsl_typing.specs.Scene.{around};
ghost use Rattle.gsl_typing.specs.Uses as spec;

use crate::nodes::give_up;
use crate::refusing::refuse;
use crate::scene::{Part, Scene};
use crate::shapes::{is_integer, shape_of};
use gsl_base::{Code, Refusal};
use gsl_overload::identical;
use gsl_tree::{BlockKind, Expr, ExprKind};
use gsl_types::{MOST_LEAVES, Scalar, Structs, Ty};
use gsl_values::Lanes;

/// Whether a member of a block is `writeonly`.
fn is_writeonly(scene: &Scene, block: u32, number: u32) -> bool
    ensures { result ≡ writeonly_of (block_member (around scene.now) block number) }
{
    if block as usize >= scene.blocks.len() {
        return false;
    }
    let members = &scene.blocks[block as usize].members;
    (number as usize) < members.len() && members[number as usize].writeonly
}

/// Whether a member of a block may be written.
fn may_write_member(scene: &Scene, block: u32, number: u32) -> bool
    ensures { result ≡ may_write_of (around scene.now) block number }
{
    if block as usize >= scene.blocks.len() {
        return false;
    }
    let block = &scene.blocks[block as usize];
    if number as usize >= block.members.len() {
        return false;
    }
    block.kind == BlockKind::Buffer && !block.members[number as usize].readonly
}

/// Whether a global variable may be written.
fn is_variable(scene: &Scene, number: u32) -> bool
    ensures { result ≡ paths.is_variable (slice_get scene.now.globals number) }
{
    (number as usize) < scene.globals.len() && !scene.globals[number as usize].constant
}

/// Whether an interface variable may be written.
fn is_output(scene: &Scene, number: u32) -> bool
    ensures { result ≡ paths.is_output (slice_get scene.now.interfaces number) }
{
    (number as usize) < scene.interfaces.len() && scene.interfaces[number as usize].output
}

/// Whether a position is picked twice.
fn repeats(lanes: &Lanes) -> bool
    ensures { result ≡ paths.repeats (picked lanes.now) }
{
    any_twice(&lanes.words[..(lanes.count as usize).min(4)])
}

fn any_twice(positions: &[u32]) -> bool
    ensures { result ≡ paths.repeats positions.now }
{
    for k in 0..positions.len() {
        if is_among(positions[k], &positions[k + 1..]) {
            return true;
        }
    }
    false
}

fn is_among(position: u32, others: &[u32]) -> bool
    ensures { result ≡ list_any (λ q. nat_eq position q) others.now }
{
    others.iter().any(|other| position == *other)
}

/// Whether an expression is a `writeonly` member of a block, or a part of one.
#[cycle(unread)]
#[tactic(auto, using(crate::proofs::Tests::tests))]
fn expr_unread(scene: &Scene, e: &Expr) -> bool
    ensures { result ≡ spec.tested (paths.unreadable_by (around scene.now)) e.now }
{
    kind_unread(scene, &e.kind)
}

#[cycle(unread)]
#[tactic(auto, using(crate::proofs::Tests::tests))]
fn kind_unread(scene: &Scene, kind: &ExprKind) -> bool
    ensures { result ≡ spec.kind_tested (paths.unreadable_by (around scene.now)) kind.now }
{
    match kind {
        ExprKind::BlockMember(block, number) => is_writeonly(scene, *block, *number),
        ExprKind::Member(a, _) | ExprKind::Index(a, _) | ExprKind::Swizzle(a, _) => {
            expr_unread(scene, a.get())
        }
        ExprKind::Const(_)
        | ExprKind::Local(_)
        | ExprKind::Global(_)
        | ExprKind::Param(_)
        | ExprKind::Stage(_)
        | ExprKind::Interface(_)
        | ExprKind::Length(_)
        | ExprKind::Unary(_, _)
        | ExprKind::Binary(_, _, _)
        | ExprKind::Logic(_, _, _)
        | ExprKind::Choose(_, _, _)
        | ExprKind::Assign(_, _)
        | ExprKind::Update(_, _, _)
        | ExprKind::Step(_, _)
        | ExprKind::Call(_, _)
        | ExprKind::Built(_, _)
        | ExprKind::Build(_)
        | ExprKind::Convert(_)
        | ExprKind::Comma(_) => false,
    }
}

/// Whether the tree of an expression shows that it may be written.
#[cycle(written)]
#[tactic(auto, using(crate::proofs::Tests::tests))]
fn expr_writable(scene: &Scene, e: &Expr) -> bool
    ensures { result ≡ spec.tested (paths.writable_by (around scene.now)) e.now }
{
    kind_writable(scene, &e.kind)
}

#[cycle(written)]
#[tactic(auto, using(crate::proofs::Tests::tests))]
fn kind_writable(scene: &Scene, kind: &ExprKind) -> bool
    ensures { result ≡ spec.kind_tested (paths.writable_by (around scene.now)) kind.now }
{
    match kind {
        ExprKind::Local(_) | ExprKind::Param(_) => true,
        ExprKind::Global(number) => is_variable(scene, *number),
        ExprKind::BlockMember(block, number) => may_write_member(scene, *block, *number),
        ExprKind::Interface(number) => is_output(scene, *number),
        ExprKind::Member(a, _) | ExprKind::Index(a, _) => expr_writable(scene, a.get()),
        ExprKind::Swizzle(a, lanes) => expr_writable(scene, a.get()) && !repeats(lanes),
        ExprKind::Const(_)
        | ExprKind::Stage(_)
        | ExprKind::Length(_)
        | ExprKind::Unary(_, _)
        | ExprKind::Binary(_, _, _)
        | ExprKind::Logic(_, _, _)
        | ExprKind::Choose(_, _, _)
        | ExprKind::Assign(_, _)
        | ExprKind::Update(_, _, _)
        | ExprKind::Step(_, _)
        | ExprKind::Call(_, _)
        | ExprKind::Built(_, _)
        | ExprKind::Build(_)
        | ExprKind::Convert(_)
        | ExprKind::Comma(_) => false,
    }
}

/// Whether an expression is a member of a block, or a part of one.
#[cycle(block)]
#[tactic(auto, using(crate::proofs::Tests::tests))]
fn expr_in_block(e: &Expr) -> bool
    ensures { result ≡ spec.tested paths.in_block_by e.now }
{
    kind_in_block(&e.kind)
}

#[cycle(block)]
#[tactic(auto, using(crate::proofs::Tests::tests))]
fn kind_in_block(kind: &ExprKind) -> bool
    ensures { result ≡ spec.kind_tested paths.in_block_by kind.now }
{
    match kind {
        ExprKind::BlockMember(_, _) => true,
        ExprKind::Member(a, _) | ExprKind::Index(a, _) | ExprKind::Swizzle(a, _) => {
            expr_in_block(a.get())
        }
        ExprKind::Const(_)
        | ExprKind::Local(_)
        | ExprKind::Global(_)
        | ExprKind::Param(_)
        | ExprKind::Stage(_)
        | ExprKind::Interface(_)
        | ExprKind::Length(_)
        | ExprKind::Unary(_, _)
        | ExprKind::Binary(_, _, _)
        | ExprKind::Logic(_, _, _)
        | ExprKind::Choose(_, _, _)
        | ExprKind::Assign(_, _)
        | ExprKind::Update(_, _, _)
        | ExprKind::Step(_, _)
        | ExprKind::Call(_, _)
        | ExprKind::Built(_, _)
        | ExprKind::Build(_)
        | ExprKind::Convert(_)
        | ExprKind::Comma(_) => false,
    }
}

/// Whether a part is a `writeonly` member of a block, or a part of one.
#[tactic(auto, unfolding(crate::specs::Uses::is_unread))]
pub fn is_unread(scene: &Scene, part: &Part) -> bool
    ensures { result ≡ spec.is_unread scene.now part.now }
{
    expr_unread(scene, &part.expr)
}

/// Whether a part is an l-value.
#[tactic(auto, unfolding(crate::specs::Uses::is_writable))]
pub fn is_writable(scene: &Scene, part: &Part) -> bool
    ensures { result ≡ spec.is_writable scene.now part.now }
{
    !part.fixed && expr_writable(scene, &part.expr)
}

/// Whether a part is a `bool` scalar.
#[tactic(auto, unfolding(crate::specs::Uses::is_bool))]
pub fn is_bool(part: &Part) -> bool
    ensures { result ≡ spec.is_bool part.now }
{
    identical(&part.expr.ty, &Ty::One(Scalar::Bool))
}

/// Whether a part is a runtime array.
#[tactic(auto, unfolding(crate::specs::Uses::is_runtime))]
pub fn is_runtime(part: &Part) -> bool
    ensures { result ≡ spec.is_runtime part.now }
{
    match &part.expr.ty {
        Ty::Runtime(_) => true,
        _ => false,
    }
}

/// Whether a part is an integer scalar or vector.
#[tactic(auto, unfolding(crate::specs::Uses::is_integral))]
pub fn is_integral(part: &Part) -> bool
    ensures { result ≡ spec.is_integral part.now }
{
    match shape_of(&part.expr.ty) {
        Some(shape) => is_integer(shape.0),
        None => false,
    }
}

/// Whether a value may have a type: not `void`, and no runtime array.
pub fn is_value_type(ty: &Ty) -> bool
    ensures { result ≡ tree_spec.is_value_type ty.now }
{
    match ty {
        Ty::Void | Ty::Runtime(_) => false,
        Ty::One(_) | Ty::Vector(_, _) | Ty::Array(_, _) | Ty::Struct(_) => true,
    }
}

fn is_aggregate(ty: &Ty) -> bool
    ensures { result ≡ paths.is_aggregate ty.now }
{
    match ty {
        Ty::Array(_, _) | Ty::Struct(_) => true,
        _ => false,
    }
}

/// The count of leaves, as it is told; of a struct that is not there it is 0.
pub fn told_leaves(structs: &Structs, ty: &Ty) -> u64
    requires known { AreStructs structs.now }
    ensures { result ≡ leaves_spec.told_leaves structs.now ty.now }
{
    match ty {
        Ty::Void | Ty::Runtime(_) => 0,
        Ty::One(_) => 1,
        Ty::Vector(_, count) => *count as u64,
        Ty::Array(element, count) => {
            let each = told_leaves(structs, element.get());
            each.saturating_mul(*count as u64).min(MOST_LEAVES)
        }
        Ty::Struct(number) => {
            if (*number as usize) < structs.len() {
                structs[*number as usize].leaves
            } else {
                0
            }
        }
    }
}

/// Whether a type is an array or a struct of more leaves than may be copied or compared.
#[tactic(auto, unfolding(crate::specs::Uses::is_large))]
pub fn is_large(scene: &Scene, ty: &Ty) -> bool
    requires known { AreStructs scene.now.structs }
    ensures { result ≡ spec.is_large scene.now ty.now }
{
    is_aggregate(ty) && told_leaves(&scene.structs, ty) > 1024
}

/// A part whose value is taken or replaced, and not that of a part of it alone.
#[tactic(auto, unfolding(crate::specs::Uses::whole))]
pub fn whole(scene: &Scene, part: Part) -> Result<Part, Refusal>
    requires known { AreStructs scene.now.structs }
    ensures { Gives result (spec.whole scene.now part) }
{
    if expr_in_block(&part.expr) && is_large(scene, &part.expr.ty) {
        let place = part.expr.place;
        give_up(part);
        return Err(refuse(place, Code::E0904));
    }
    Ok(part)
}
