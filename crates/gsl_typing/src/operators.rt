//! Operators, `?:` and commas over typed operands.

ghost use Rattle.std.specs.Prelude.{◌≡◌, IfOk};
ghost use Rattle.gsl_base.specs.Checked.{Gives};
ghost use Rattle.gsl_types.specs.Known.{AreStructs};
ghost use Rattle.gsl_tree.specs.declared.expr.ExprKind.TheVariants as kind;
ghost use Rattle.gsl_typing.specs.Conversions.{as_type};
ghost use Rattle.gsl_typing.specs.Operators as spec;
ghost use Rattle.gsl_tree.specs.Expressions.{boolean};
ghost use Rattle.gsl_tree.specs.Trees.{type_of};
ghost use Rattle.gsl_typing.specs.Scene.{made};

use crate::fits::{Fitting, fitted, unary_type};
use crate::nodes::{both_as, boxed_both, give_up, give_up_both};
use crate::refusing::refuse;
use crate::scene::{Part, Scene};
use crate::types::{common, copy};
use crate::uses::{
    is_bool, is_integral, is_large, is_runtime, is_unread, is_value_type, is_writable,
};
use gsl_base::{Boxed, Code, Memory, Place, Refusal};
use gsl_syntax::{BinaryOp as Sign, PostfixOp as PostfixSign, UnaryOp as UnarySign};
use gsl_tree::{Expr, ExprKind, LogicOp, StepOp};
use gsl_types::{Scalar, Ty};
use gsl_values::{BinaryOp, UnaryOp};
use std::alloc::Global;

/// A part of which the tree shows whether it may be written.
pub(crate) fn made(place: Place, ty: Ty, kind: ExprKind) -> Part
    ensures { result ≡ made place ty kind }
{
    Part {
        expr: Expr { ty, place, kind },
        fixed: false,
    }
}

/// What an arithmetic operator, an operator on bits, a shift or a relation does with two operands.
#[tactic(auto, unfolding(crate::specs::Operators::operands))]
fn operands(
    scene: &Scene,
    op: BinaryOp,
    place: Place,
    a: &Part,
    b: &Part,
) -> Result<Fitting, Refusal>
    ensures { Gives result (spec.operands scene.now op place a.now b.now) }
{
    let fit = match fitted(op, &a.expr.ty, &b.expr.ty) {
        Some(fit) => fit,
        None => return Err(refuse(place, Code::E0503)),
    };
    if is_unread(scene, a) || is_unread(scene, b) {
        return Err(refuse(place, Code::E0507));
    }
    Ok(fit)
}

/// Operands that are converted, and joined by their operator.
fn converted(
    alloc: Global,
    place: Place,
    op: BinaryOp,
    fit: Fitting,
    a: Expr,
    b: Expr,
) -> Result<Part, Memory>
    ensures { IfOk result (λ x. x ≡ spec.fitted place op fit a b) }
{
    let (a, b) = both_as(alloc, &fit.left, &fit.right, a, b)?;
    Ok(made(place, fit.result, ExprKind::Binary(op, a, b)))
}

/// An arithmetic operator, an operator on bits, a shift or a relation.
#[tactic(auto, unfolding(crate::specs::Operators::operation))]
fn operation(
    alloc: Global,
    scene: &Scene,
    op: BinaryOp,
    place: Place,
    a: Part,
    b: Part,
) -> Result<Part, Refusal>
    ensures { Gives result (spec.operation scene.now op place a b) }
{
    match operands(scene, op, place, &a, &b) {
        Ok(fit) => Ok(converted(alloc, place, op, fit, a.expr, b.expr)?),
        Err(refusal) => {
            give_up_both(a, b);
            Err(refusal)
        }
    }
}

/// The type in which two operands are compared.
#[tactic(auto, unfolding(crate::specs::Operators::comparison))]
fn comparison(alloc: Global, scene: &Scene, place: Place, a: &Part, b: &Part) -> Result<Ty, Refusal>
    requires known { AreStructs scene.now.structs }
    ensures { Gives result (spec.comparison scene.now place a.now b.now) }
{
    let ty = match common(alloc, &a.expr.ty, &b.expr.ty)? {
        Some(ty) => ty,
        None => return Err(refuse(place, Code::E0503)),
    };
    if !is_value_type(&ty) {
        return Err(refuse(place, Code::E0503));
    }
    if is_unread(scene, a) || is_unread(scene, b) {
        return Err(refuse(place, Code::E0507));
    }
    if is_large(scene, &ty) {
        return Err(refuse(place, Code::E0904));
    }
    Ok(ty)
}

/// `==` and `!=`
#[tactic(auto, unfolding(crate::specs::Operators::equality))]
fn equality(
    alloc: Global,
    scene: &Scene,
    op: BinaryOp,
    place: Place,
    a: Part,
    b: Part,
) -> Result<Part, Refusal>
    requires known { AreStructs scene.now.structs }
    ensures { Gives result (spec.equality scene.now op place a b) }
{
    match comparison(alloc, scene, place, &a, &b) {
        Ok(ty) => Ok(compared(alloc, place, &ty, op, a.expr, b.expr)?),
        Err(refusal) => {
            give_up_both(a, b);
            Err(refusal)
        }
    }
}

/// A comparison of two values in one type.
fn compared(
    alloc: Global,
    place: Place,
    ty: &Ty,
    op: BinaryOp,
    a: Expr,
    b: Expr,
) -> Result<Part, Memory>
    ensures { IfOk result (λ x. x ≡ made place boolean (kind.Binary op (as_type ty.now a) (as_type ty.now b))) }
{
    let (a, b) = both_as(alloc, ty, ty, a, b)?;
    Ok(made(place, Ty::One(Scalar::Bool), ExprKind::Binary(op, a, b)))
}

fn connected(alloc: Global, place: Place, op: LogicOp, a: Expr, b: Expr) -> Result<Part, Memory>
    ensures { IfOk result (λ x. x ≡ made place boolean (kind.Logic op a b)) }
{
    let (a, b) = boxed_both(alloc, a, b)?;
    Ok(made(place, Ty::One(Scalar::Bool), ExprKind::Logic(op, a, b)))
}

/// Two truth values, which are read.
#[tactic(auto, unfolding(crate::specs::Operators::truths))]
fn truths(scene: &Scene, place: Place, a: &Part, b: &Part) -> Result<(), Refusal>
    ensures { Gives result (spec.truths scene.now place a.now b.now) }
{
    if !(is_bool(a) && is_bool(b)) {
        return Err(refuse(place, Code::E0503));
    }
    if is_unread(scene, a) || is_unread(scene, b) {
        return Err(refuse(place, Code::E0507));
    }
    Ok(())
}

/// `&&`, `||` and `^^`
#[tactic(auto, unfolding(crate::specs::Operators::logic))]
fn logic(
    alloc: Global,
    scene: &Scene,
    op: LogicOp,
    place: Place,
    a: Part,
    b: Part,
) -> Result<Part, Refusal>
    ensures { Gives result (spec.logic scene.now op place a b) }
{
    match truths(scene, place, &a, &b) {
        Ok(()) => Ok(connected(alloc, place, op, a.expr, b.expr)?),
        Err(refusal) => {
            give_up_both(a, b);
            Err(refusal)
        }
    }
}

/// An operator on two operands, by its sign.
#[tactic(auto, unfolding(crate::specs::Operators::binary))]
pub fn binary(
    alloc: Global,
    scene: &Scene,
    sign: Sign,
    place: Place,
    a: Part,
    b: Part,
) -> Result<Part, Refusal>
    requires known { AreStructs scene.now.structs }
    ensures { Gives result (spec.binary scene.now sign place a b) }
{
    match sign {
        Sign::LogicalOr => logic(alloc, scene, LogicOp::Or, place, a, b),
        Sign::LogicalXor => logic(alloc, scene, LogicOp::Xor, place, a, b),
        Sign::LogicalAnd => logic(alloc, scene, LogicOp::And, place, a, b),
        Sign::BitOr => operation(alloc, scene, BinaryOp::Or, place, a, b),
        Sign::BitXor => operation(alloc, scene, BinaryOp::Xor, place, a, b),
        Sign::BitAnd => operation(alloc, scene, BinaryOp::And, place, a, b),
        Sign::Equal => equality(alloc, scene, BinaryOp::Equal, place, a, b),
        Sign::NotEqual => equality(alloc, scene, BinaryOp::Unequal, place, a, b),
        Sign::Less => operation(alloc, scene, BinaryOp::Less, place, a, b),
        Sign::Greater => operation(alloc, scene, BinaryOp::Greater, place, a, b),
        Sign::LessEqual => operation(alloc, scene, BinaryOp::LessEq, place, a, b),
        Sign::GreaterEqual => operation(alloc, scene, BinaryOp::GreaterEq, place, a, b),
        Sign::ShiftLeft => operation(alloc, scene, BinaryOp::Shl, place, a, b),
        Sign::ShiftRight => operation(alloc, scene, BinaryOp::Shr, place, a, b),
        Sign::Add => operation(alloc, scene, BinaryOp::Add, place, a, b),
        Sign::Sub => operation(alloc, scene, BinaryOp::Sub, place, a, b),
        Sign::Mul => operation(alloc, scene, BinaryOp::Mul, place, a, b),
        Sign::Div => operation(alloc, scene, BinaryOp::Div, place, a, b),
        Sign::Mod => operation(alloc, scene, BinaryOp::Mod, place, a, b),
    }
}

/// The type that `-`, `~` or `!` gives.
#[tactic(auto, unfolding(crate::specs::Operators::operand))]
fn operand(scene: &Scene, op: UnaryOp, place: Place, a: &Part) -> Result<Ty, Refusal>
    ensures { Gives result (spec.operand scene.now op place a.now) }
{
    let ty = match unary_type(op, &a.expr.ty) {
        Some(ty) => ty,
        None => return Err(refuse(place, Code::E0503)),
    };
    if is_unread(scene, a) {
        return Err(refuse(place, Code::E0507));
    }
    Ok(ty)
}

/// `-`, `~` and `!`
#[tactic(auto, unfolding(crate::specs::Operators::one_operand))]
fn one_operand(
    alloc: Global,
    scene: &Scene,
    op: UnaryOp,
    place: Place,
    a: Part,
) -> Result<Part, Refusal>
    ensures { Gives result (spec.one_operand scene.now op place a) }
{
    let ty = operand(scene, op, place, &a)?;
    let a = Boxed::new(alloc, a.expr)?;
    Ok(made(place, ty, ExprKind::Unary(op, a)))
}

/// A unary `+`, which has no node of its own.
#[tactic(auto, unfolding(crate::specs::Operators::plus))]
fn plus(scene: &Scene, place: Place, a: Part) -> Result<Part, Refusal>
    ensures { Gives result (spec.plus scene.now place a) }
{
    if !is_integral(&a) {
        give_up(a);
        return Err(refuse(place, Code::E0503));
    }
    if is_unread(scene, &a) {
        give_up(a);
        return Err(refuse(place, Code::E0507));
    }
    Ok(Part {
        expr: a.expr,
        fixed: true,
    })
}

/// An operand that is read and written.
#[tactic(auto, unfolding(crate::specs::Operators::counter))]
fn counter(scene: &Scene, place: Place, a: &Part) -> Result<(), Refusal>
    ensures { Gives result (spec.counter scene.now place a.now) }
{
    if !is_integral(a) {
        return Err(refuse(place, Code::E0503));
    }
    if !is_writable(scene, a) || is_unread(scene, a) {
        return Err(refuse(place, Code::E0507));
    }
    Ok(())
}

/// A step of what stands in an expression.
fn stepped(alloc: Global, place: Place, op: StepOp, a: Expr) -> Result<Part, Memory>
    ensures { IfOk result (λ x. x ≡ made place (type_of a) (kind.Step op a)) }
{
    match copy(alloc, &a.ty) {
        Ok(ty) => moved(alloc, place, ty, op, a),
        Err(memory) => {
            drop(a);
            Err(memory)
        }
    }
}

fn moved(alloc: Global, place: Place, ty: Ty, op: StepOp, a: Expr) -> Result<Part, Memory>
    ensures { IfOk result (λ x. x ≡ made place ty (kind.Step op a)) }
{
    let a = Boxed::new(alloc, a)?;
    Ok(made(place, ty, ExprKind::Step(op, a)))
}

/// `++` and `--`
#[tactic(auto, unfolding(crate::specs::Operators::step))]
fn step(alloc: Global, scene: &Scene, op: StepOp, place: Place, a: Part) -> Result<Part, Refusal>
    ensures { Gives result (spec.step scene.now op place a) }
{
    match counter(scene, place, &a) {
        Ok(()) => Ok(stepped(alloc, place, op, a.expr)?),
        Err(refusal) => {
            give_up(a);
            Err(refusal)
        }
    }
}

/// An operator before its operand, by its sign.
#[tactic(auto, unfolding(crate::specs::Operators::unary))]
pub fn unary(
    alloc: Global,
    scene: &Scene,
    sign: UnarySign,
    place: Place,
    a: Part,
) -> Result<Part, Refusal>
    ensures { Gives result (spec.unary scene.now sign place a) }
{
    match sign {
        UnarySign::Increment => step(alloc, scene, StepOp::PreUp, place, a),
        UnarySign::Decrement => step(alloc, scene, StepOp::PreDown, place, a),
        UnarySign::Plus => plus(scene, place, a),
        UnarySign::Minus => one_operand(alloc, scene, UnaryOp::Negate, place, a),
        UnarySign::Complement => one_operand(alloc, scene, UnaryOp::Flip, place, a),
        UnarySign::Not => one_operand(alloc, scene, UnaryOp::Not, place, a),
    }
}

/// An operator behind its operand, by its sign.
#[tactic(auto, unfolding(crate::specs::Operators::postfix))]
pub fn postfix(
    alloc: Global,
    scene: &Scene,
    sign: PostfixSign,
    place: Place,
    a: Part,
) -> Result<Part, Refusal>
    ensures { Gives result (spec.postfix scene.now sign place a) }
{
    match sign {
        PostfixSign::Increment => step(alloc, scene, StepOp::PostUp, place, a),
        PostfixSign::Decrement => step(alloc, scene, StepOp::PostDown, place, a),
    }
}

/// The type that `?:` gives.
#[tactic(auto, unfolding(crate::specs::Operators::chosen_type))]
fn chosen_type(
    alloc: Global,
    scene: &Scene,
    place: Place,
    test: &Part,
    a: &Part,
    b: &Part,
) -> Result<Ty, Refusal>
    ensures { Gives result (spec.chosen_type scene.now place test.now a.now b.now) }
{
    let ty = match common(alloc, &a.expr.ty, &b.expr.ty)? {
        Some(ty) => ty,
        None => return Err(refuse(place, Code::E0503)),
    };
    if !is_bool(test) {
        return Err(refuse(place, Code::E0503));
    }
    if is_unread(scene, test) || is_unread(scene, a) || is_unread(scene, b) {
        return Err(refuse(place, Code::E0507));
    }
    if !is_value_type(&ty) {
        return Err(refuse(place, Code::E0510));
    }
    Ok(ty)
}

fn offered(
    alloc: Global,
    place: Place,
    ty: Ty,
    test: Expr,
    a: Boxed<Expr>,
    b: Boxed<Expr>,
) -> Result<Part, Memory>
    ensures { IfOk result (λ x. x ≡ made place ty (kind.Choose test a b)) }
{
    match Boxed::new(alloc, test) {
        Ok(test) => Ok(made(place, ty, ExprKind::Choose(test, a, b))),
        Err(memory) => {
            drop(a);
            drop(b);
            Err(memory)
        }
    }
}

/// A choice between two values, which are converted to one type.
fn chosen(alloc: Global, place: Place, ty: Ty, test: Expr, a: Expr, b: Expr) -> Result<Part, Memory>
    ensures { IfOk result (λ x. x ≡ made place ty (kind.Choose test (as_type ty a) (as_type ty b))) }
{
    match both_as(alloc, &ty, &ty, a, b) {
        Ok((a, b)) => offered(alloc, place, ty, test, a, b),
        Err(memory) => {
            drop(test);
            Err(memory)
        }
    }
}

/// `test ? a : b`
#[tactic(auto, unfolding(crate::specs::Operators::choice))]
pub fn choice(
    alloc: Global,
    scene: &Scene,
    place: Place,
    test: Part,
    a: Part,
    b: Part,
) -> Result<Part, Refusal>
    ensures { Gives result (spec.choice scene.now place test a b) }
{
    match chosen_type(alloc, scene, place, &test, &a, &b) {
        Ok(ty) => Ok(chosen(alloc, place, ty, test.expr, a.expr, b.expr)?),
        Err(refusal) => {
            give_up(test);
            give_up_both(a, b);
            Err(refusal)
        }
    }
}

/// The value behind a comma, which takes the one before it too.
#[tactic(auto, unfolding(crate::specs::Operators::comma))]
pub fn comma(scene: &Scene, place: Place, before: &Part, behind: Part) -> Result<Part, Refusal>
    ensures { Gives result (spec.comma scene.now place before.now behind) }
{
    if is_unread(scene, before) || is_unread(scene, &behind) {
        give_up(behind);
        return Err(refuse(place, Code::E0507));
    }
    if is_runtime(before) || is_runtime(&behind) {
        give_up(behind);
        return Err(refuse(place, Code::E0510));
    }
    Ok(behind)
}
