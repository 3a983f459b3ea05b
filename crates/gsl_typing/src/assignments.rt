//! Assignments over typed operands.

ghost use Rattle.std.specs.Prelude.{◌≡◌, IfOk};
ghost use Rattle.gsl_base.specs.Checked.{Gives};
ghost use Rattle.gsl_tree.specs.Trees.{type_of};
ghost use Rattle.gsl_tree.specs.declared.expr.ExprKind.TheVariants as kind;
ghost use Rattle.gsl_typing.specs.Conversions.{as_type};
ghost use Rattle.gsl_typing.specs.Operators as spec;
ghost use Rattle.gsl_typing.specs.Scene.{made};

use crate::fits::{Fitting, fitted};
use crate::nodes::{give_up_both, second_as};
use crate::operators::made;
use crate::refusing::refuse;
use crate::scene::{Part, Scene};
use crate::types::{copy, serves_as};
use crate::uses::{is_unread, is_value_type, is_writable};
use gsl_base::{Code, Memory, Place, Refusal};
use gsl_syntax::AssignOp as Sign;
use gsl_tree::{Expr, ExprKind};
use gsl_types::Ty;
use gsl_values::BinaryOp;
use std::alloc::Global;

/// Whether a value may be stored in an l-value.
#[tactic(auto, unfolding(crate::specs::Operators::storable))]
fn storable(scene: &Scene, place: Place, a: &Part, b: &Part) -> Result<(), Refusal>
    ensures { Gives result (spec.storable scene.now place a.now b.now) }
{
    if !serves_as(&b.expr.ty, &a.expr.ty) {
        return Err(refuse(place, Code::E0504));
    }
    if !is_writable(scene, a) || is_unread(scene, b) {
        return Err(refuse(place, Code::E0507));
    }
    if !is_value_type(&a.expr.ty) {
        return Err(refuse(place, Code::E0510));
    }
    Ok(())
}

/// `a = b`
#[tactic(auto, unfolding(crate::specs::Operators::assignment))]
fn assignment(alloc: Global, scene: &Scene, place: Place, a: Part, b: Part) -> Result<Part, Refusal>
    ensures { Gives result (spec.assignment scene.now place a b) }
{
    match storable(scene, place, &a, &b) {
        Ok(()) => Ok(stored(alloc, place, a.expr, b.expr)?),
        Err(refusal) => {
            give_up_both(a, b);
            Err(refusal)
        }
    }
}

/// A value is stored as the type of what it is stored in.
fn stored(alloc: Global, place: Place, a: Expr, b: Expr) -> Result<Part, Memory>
    ensures { IfOk result (λ x. x ≡ made place (type_of a) (kind.Assign a (as_type (type_of a) b))) }
{
    match copy(alloc, &a.ty) {
        Ok(ty) => set(alloc, place, ty, a, b),
        Err(memory) => {
            drop(a);
            drop(b);
            Err(memory)
        }
    }
}

fn set(alloc: Global, place: Place, ty: Ty, a: Expr, b: Expr) -> Result<Part, Memory>
    ensures { IfOk result (λ x. x ≡ made place ty (kind.Assign a (as_type ty b))) }
{
    let (a, b) = second_as(alloc, &ty, a, b)?;
    Ok(made(place, ty, ExprKind::Assign(a, b)))
}

/// What `op=` does with its operands.
#[tactic(auto, unfolding(crate::specs::Operators::updates))]
fn updates(
    scene: &Scene,
    op: BinaryOp,
    place: Place,
    a: &Part,
    b: &Part,
) -> Result<Fitting, Refusal>
    ensures { Gives result (spec.updates scene.now op place a.now b.now) }
{
    let fit = match fitted(op, &a.expr.ty, &b.expr.ty) {
        Some(fit) => fit,
        None => return Err(refuse(place, Code::E0503)),
    };
    if !serves_as(&fit.result, &a.expr.ty) {
        return Err(refuse(place, Code::E0504));
    }
    if !is_writable(scene, a) || is_unread(scene, a) || is_unread(scene, b) {
        return Err(refuse(place, Code::E0507));
    }
    Ok(fit)
}

/// `a op= b`
#[tactic(auto, unfolding(crate::specs::Operators::update))]
fn update(
    alloc: Global,
    scene: &Scene,
    op: BinaryOp,
    place: Place,
    a: Part,
    b: Part,
) -> Result<Part, Refusal>
    ensures { Gives result (spec.update scene.now op place a b) }
{
    match updates(scene, op, place, &a, &b) {
        Ok(fit) => Ok(updated(alloc, place, op, &fit.right, a.expr, b.expr)?),
        Err(refusal) => {
            give_up_both(a, b);
            Err(refusal)
        }
    }
}

/// A value is updated with another, which is needed as a type.
fn updated(
    alloc: Global,
    place: Place,
    op: BinaryOp,
    right: &Ty,
    a: Expr,
    b: Expr,
) -> Result<Part, Memory>
    ensures { IfOk result (λ x. x ≡ made place (type_of a) (kind.Update op a (as_type right.now b))) }
{
    match copy(alloc, &a.ty) {
        Ok(ty) => changed(alloc, place, ty, op, right, a, b),
        Err(memory) => {
            drop(a);
            drop(b);
            Err(memory)
        }
    }
}

fn changed(
    alloc: Global,
    place: Place,
    ty: Ty,
    op: BinaryOp,
    right: &Ty,
    a: Expr,
    b: Expr,
) -> Result<Part, Memory>
    ensures { IfOk result (λ x. x ≡ made place ty (kind.Update op a (as_type right.now b))) }
{
    let (a, b) = second_as(alloc, right, a, b)?;
    Ok(made(place, ty, ExprKind::Update(op, a, b)))
}

/// An assignment, by its sign.
#[tactic(auto, unfolding(crate::specs::Operators::assigned))]
pub fn assigned(
    alloc: Global,
    scene: &Scene,
    sign: Sign,
    place: Place,
    a: Part,
    b: Part,
) -> Result<Part, Refusal>
    ensures { Gives result (spec.assigned scene.now sign place a b) }
{
    match sign {
        Sign::Set => assignment(alloc, scene, place, a, b),
        Sign::Add => update(alloc, scene, BinaryOp::Add, place, a, b),
        Sign::Sub => update(alloc, scene, BinaryOp::Sub, place, a, b),
        Sign::Mul => update(alloc, scene, BinaryOp::Mul, place, a, b),
        Sign::Div => update(alloc, scene, BinaryOp::Div, place, a, b),
        Sign::Mod => update(alloc, scene, BinaryOp::Mod, place, a, b),
        Sign::ShiftLeft => update(alloc, scene, BinaryOp::Shl, place, a, b),
        Sign::ShiftRight => update(alloc, scene, BinaryOp::Shr, place, a, b),
        Sign::BitAnd => update(alloc, scene, BinaryOp::And, place, a, b),
        Sign::BitXor => update(alloc, scene, BinaryOp::Xor, place, a, b),
        Sign::BitOr => update(alloc, scene, BinaryOp::Or, place, a, b),
    }
}
