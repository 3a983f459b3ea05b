//! Operators and conversions.

ghost use Rattle.std.specs.Prelude.{◌≡◌, ◌==◌, [], ◌∷◌, max, true};
ghost use Rattle.gsl_lower_values.specs.Building.{Does};
ghost use Rattle.gsl_lower_values.specs.Operators as spec;

use crate::giving::give;
use crate::operand::{Operand, Shape};
use crate::types::{copies, filled_constant, type_of};
use gsl_instr::op;
use gsl_spv::{BuildRefusal, Builder};
use gsl_tree::{LogicOp, StepOp};
use gsl_types::Scalar;
use gsl_values::{BinaryOp, UnaryOp};
use std::alloc::Global;

fn unary_code(which: UnaryOp) -> u16
    ensures { result ≡ spec.unary_code which }
{
    match which {
        UnaryOp::Negate => op::S_NEGATE,
        UnaryOp::Flip => op::NOT,
        UnaryOp::Not => op::LOGICAL_NOT,
    }
}

/// An operator on one value.
#[tactic(auto, unfolding(crate::specs::Operators::unary))]
pub fn unary(
    alloc: Global,
    b: &mut Builder,
    which: UnaryOp,
    a: Operand,
) -> Result<u32, BuildRefusal>
    ensures { Does result b.new (spec.unary which a b.old) }
{
    let ty = type_of(b, a.shape)?;
    give(alloc, b, unary_code(which), &[a.id], ty)
}

fn step_code(which: StepOp) -> u16
    ensures { result ≡ spec.step_code which }
{
    match which {
        StepOp::PreUp | StepOp::PostUp => op::I_ADD,
        StepOp::PreDown | StepOp::PostDown => op::I_SUB,
    }
}

/// What `++` and `--` make of a value.
#[tactic(auto, unfolding(crate::specs::Operators::stepped))]
pub fn stepped(
    alloc: Global,
    b: &mut Builder,
    which: StepOp,
    a: Operand,
) -> Result<u32, BuildRefusal>
    ensures { Does result b.new (spec.stepped which a b.old) }
{
    let ones = filled_constant(alloc, b, a.shape, 1)?;
    let ty = type_of(b, a.shape)?;
    give(alloc, b, step_code(which), &[a.id, ones], ty)
}

/// Truth values as numbers: one or zero.
fn numbered(alloc: Global, b: &mut Builder, to: Scalar, a: Operand) -> Result<u32, BuildRefusal>
    ensures { Does result b.new (spec.numbered to a b.old) }
{
    let shape = (to, a.shape.1);
    let ones = filled_constant(alloc, b, shape, 1)?;
    let zeros = filled_constant(alloc, b, shape, 0)?;
    let ty = type_of(b, shape)?;
    give(alloc, b, op::SELECT, &[a.id, ones, zeros], ty)
}

/// Numbers as truth values: whether they differ from zero.
fn tested(alloc: Global, b: &mut Builder, a: Operand) -> Result<u32, BuildRefusal>
    ensures { Does result b.new (spec.tested a b.old) }
{
    let zeros = filled_constant(alloc, b, a.shape, 0)?;
    let ty = type_of(b, (Scalar::Bool, a.shape.1))?;
    give(alloc, b, op::I_NOT_EQUAL, &[a.id, zeros], ty)
}

/// Numbers with a sign as numbers without one, and the other way.
fn recast(alloc: Global, b: &mut Builder, to: Scalar, a: Operand) -> Result<u32, BuildRefusal>
    ensures { Does result b.new (spec.recast to a b.old) }
{
    let ty = type_of(b, (to, a.shape.1))?;
    give(alloc, b, op::BITCAST, &[a.id], ty)
}

/// A value with each component as one of another scalar type.
#[tactic(auto, unfolding(crate::specs::Operators::converted))]
pub fn converted(
    alloc: Global,
    b: &mut Builder,
    to: Scalar,
    a: Operand,
) -> Result<u32, BuildRefusal>
    ensures { Does result b.new (spec.converted to a b.old) }
{
    match (a.shape.0, to) {
        (Scalar::Bool, Scalar::Bool) | (Scalar::Int, Scalar::Int) | (Scalar::Uint, Scalar::Uint) =>
            Ok(a.id),
        (Scalar::Bool, Scalar::Int) => numbered(alloc, b, Scalar::Int, a),
        (Scalar::Bool, Scalar::Uint) => numbered(alloc, b, Scalar::Uint, a),
        (Scalar::Int, Scalar::Bool) | (Scalar::Uint, Scalar::Bool) => tested(alloc, b, a),
        (Scalar::Int, Scalar::Uint) => recast(alloc, b, Scalar::Uint, a),
        (Scalar::Uint, Scalar::Int) => recast(alloc, b, Scalar::Int, a),
    }
}

/// A scalar as a vector of so many components, each of which is that scalar.
#[tactic(auto, unfolding(crate::specs::Operators::spread))]
pub(crate) fn spread(
    alloc: Global,
    b: &mut Builder,
    count: u32,
    a: Operand,
) -> Result<u32, BuildRefusal>
    ensures { Does result b.new (spec.spread count a b.old) }
{
    if a.shape.1 == count {
        return Ok(a.id);
    }
    let ty = type_of(b, (a.shape.0, count))?;
    let parts = copies(alloc, a.id, count)?;
    give(alloc, b, op::COMPOSITE_CONSTRUCT, parts.as_slice(), ty)
}

/// One opcode for `int`, and another for all else.
pub(crate) fn by_sign(s: Scalar, signed: u16, unsigned: u16) -> u16
    ensures { result ≡ spec.by_sign s signed unsigned }
{
    match s {
        Scalar::Int => signed,
        Scalar::Bool | Scalar::Uint => unsigned,
    }
}

fn by_truth(s: Scalar, logical: u16, number: u16) -> u16
    ensures { result ≡ spec.by_truth s logical number }
{
    match s {
        Scalar::Bool => logical,
        Scalar::Int | Scalar::Uint => number,
    }
}

/// The opcode of an operator that gives numbers, or of any other.
fn number_code(which: BinaryOp, s: Scalar) -> u16
    ensures { result ≡ spec.binary_code which s }
{
    match which {
        BinaryOp::Add => op::I_ADD,
        BinaryOp::Sub => op::I_SUB,
        BinaryOp::Mul => op::I_MUL,
        BinaryOp::Div => by_sign(s, op::S_DIV, op::U_DIV),
        BinaryOp::Mod => by_sign(s, op::S_MOD, op::U_MOD),
        BinaryOp::Shl => op::SHIFT_LEFT_LOGICAL,
        BinaryOp::Shr => by_sign(s, op::SHIFT_RIGHT_ARITHMETIC, op::SHIFT_RIGHT_LOGICAL),
        BinaryOp::And => op::BITWISE_AND,
        BinaryOp::Or => op::BITWISE_OR,
        BinaryOp::Xor => op::BITWISE_XOR,
        other => relation_code(other, s),
    }
}

/// The opcode of a relation, or of any other operator.
fn relation_code(which: BinaryOp, s: Scalar) -> u16
    requires { spec.is_relation which ≡ true }
    ensures { result ≡ spec.binary_code which s }
{
    match which {
        BinaryOp::Less => by_sign(s, op::S_LESS_THAN, op::U_LESS_THAN),
        BinaryOp::LessEq => by_sign(s, op::S_LESS_THAN_EQUAL, op::U_LESS_THAN_EQUAL),
        BinaryOp::Greater => by_sign(s, op::S_GREATER_THAN, op::U_GREATER_THAN),
        BinaryOp::GreaterEq => by_sign(s, op::S_GREATER_THAN_EQUAL, op::U_GREATER_THAN_EQUAL),
        BinaryOp::Equal => by_truth(s, op::LOGICAL_EQUAL, op::I_EQUAL),
        BinaryOp::Unequal => by_truth(s, op::LOGICAL_NOT_EQUAL, op::I_NOT_EQUAL),
        _ => op::I_ADD,
    }
}

fn is_relation(which: BinaryOp) -> bool
    ensures { result ≡ spec.is_relation which }
{
    match which {
        BinaryOp::Less
        | BinaryOp::LessEq
        | BinaryOp::Greater
        | BinaryOp::GreaterEq
        | BinaryOp::Equal
        | BinaryOp::Unequal => true,
        _ => false,
    }
}

/// The opcode of an operator whose left operand is of a scalar type.
pub(crate) fn binary_code(which: BinaryOp, s: Scalar) -> u16
    ensures { result ≡ spec.binary_code which s }
{
    number_code(which, s)
}

fn given_scalar(which: BinaryOp, s: Scalar) -> Scalar
    ensures { result ≡ spec.given_scalar which s }
{
    if is_relation(which) { Scalar::Bool } else { s }
}

/// An operator component by component, a scalar serving each of the components of the other operand.
#[tactic(auto, unfolding(crate::specs::Operators::each))]
fn each(
    alloc: Global,
    b: &mut Builder,
    which: BinaryOp,
    x: Operand,
    y: Operand,
) -> Result<u32, BuildRefusal>
    ensures { Does result b.new (spec.each which x y b.old) }
{
    let count = x.shape.1.max(y.shape.1);
    let left = spread(alloc, b, count, x)?;
    let right = spread(alloc, b, count, y)?;
    let ty = type_of(b, (given_scalar(which, x.shape.0), count))?;
    give(alloc, b, binary_code(which, x.shape.0), &[left, right], ty)
}

fn joining(alloc: Global, b: &mut Builder, code: u16, truths: u32) -> Result<u32, BuildRefusal>
    ensures { Does result b.new (spec.joining code truths b.old) }
{
    let ty = type_of(b, (Scalar::Bool, 1))?;
    give(alloc, b, code, &[truths], ty)
}

/// Vectors are equal where all components are, and unequal where any is.
fn joined(
    alloc: Global,
    b: &mut Builder,
    which: BinaryOp,
    count: u32,
    truths: u32,
) -> Result<u32, BuildRefusal>
    ensures { Does result b.new (spec.joined which count truths b.old) }
{
    if count == 1 {
        return Ok(truths);
    }
    match which {
        BinaryOp::Equal => joining(alloc, b, op::ALL, truths),
        BinaryOp::Unequal => joining(alloc, b, op::ANY, truths),
        _ => Ok(truths),
    }
}

/// An operator on two scalars or vectors.
#[tactic(auto, unfolding(crate::specs::Operators::binary))]
pub fn binary(
    alloc: Global,
    b: &mut Builder,
    which: BinaryOp,
    x: Operand,
    y: Operand,
) -> Result<u32, BuildRefusal>
    ensures { Does result b.new (spec.binary which x y b.old) }
{
    let id = each(alloc, b, which, x, y)?;
    joined(alloc, b, which, x.shape.1.max(y.shape.1), id)
}

fn logic_code(which: LogicOp) -> u16
    ensures { result ≡ spec.logic_code which }
{
    match which {
        LogicOp::And => op::LOGICAL_AND,
        LogicOp::Or => op::LOGICAL_OR,
        LogicOp::Xor => op::LOGICAL_NOT_EQUAL,
    }
}

/// A logical operator on two truth values that are both there.
#[tactic(auto, unfolding(crate::specs::Operators::logical))]
pub fn logical(
    alloc: Global,
    b: &mut Builder,
    which: LogicOp,
    x: u32,
    y: u32,
) -> Result<u32, BuildRefusal>
    ensures { Does result b.new (spec.logical which x y b.old) }
{
    let ty = type_of(b, (Scalar::Bool, 1))?;
    give(alloc, b, logic_code(which), &[x, y], ty)
}

/// The first of two values of a shape where a condition holds, and else the second.
#[tactic(auto, unfolding(crate::specs::Operators::selected))]
pub fn selected(
    alloc: Global,
    b: &mut Builder,
    shape: Shape,
    condition: u32,
    x: u32,
    y: u32,
) -> Result<u32, BuildRefusal>
    ensures { Does result b.new (spec.selected shape condition x y b.old) }
{
    let ty = type_of(b, shape)?;
    give(alloc, b, op::SELECT, &[condition, x, y], ty)
}
