//! Built-in functions.

ghost use Rattle.std.specs.Prelude.{◌≡◌, [], ◌∷◌};
ghost use Rattle.gsl_lower_values.specs.Building.{Does};
ghost use Rattle.gsl_lower_values.specs.Builtins as spec;
ghost use Rattle.gsl_lower_values.specs.Operators as operators;
ghost use Rattle.std.specs.Prelude.{IfOk};

use crate::giving::give;
use crate::operand::{Operand, Shape};
use crate::operators::{binary_code, by_sign, selected, spread};
use crate::types::type_of;
use gsl_base::{List, Memory};
use gsl_instr::enumerant::glsl_std_450;
use gsl_instr::op;
use gsl_spv::{BuildRefusal, Builder};
use gsl_types::Scalar;
use gsl_values::{BinaryOp, Builtin};
use gsl_words::Args;
use std::alloc::Global;

fn operands_of(alloc: Global, set: u32, number: u32, operands: &[u32]) -> Result<Args, Memory>
    ensures { IfOk result (λ args. args ≡ set ∷ number ∷ operands.now) }
{
    let mut args = List::from_slice(alloc, &[set, number])?;
    args.extend_from_slice(operands)?;
    Ok(args)
}

/// An instruction of the set of GLSL.
#[tactic(auto, unfolding(crate::specs::Builtins::extend))]
fn extend(
    alloc: Global,
    b: &mut Builder,
    number: u32,
    operands: &[u32],
    shape: Shape,
) -> Result<u32, BuildRefusal>
    ensures { Does result b.new (spec.extend number operands.now shape b.old) }
{
    let set = b.glsl_set()?;
    let ty = type_of(b, shape)?;
    let args = operands_of(alloc, set, number, operands)?;
    give(alloc, b, op::EXT_INST, args.as_slice(), ty)
}

fn as_type(
    alloc: Global,
    b: &mut Builder,
    shape: Shape,
    code: u16,
    operands: &[u32],
) -> Result<u32, BuildRefusal>
    ensures { Does result b.new (spec.as_type shape code operands.now b.old) }
{
    let ty = type_of(b, shape)?;
    give(alloc, b, code, operands, ty)
}

fn number_by_sign(s: Scalar, signed: u32, unsigned: u32) -> u32
    ensures { result ≡ operators.by_sign s signed unsigned }
{
    match s {
        Scalar::Int => signed,
        Scalar::Bool | Scalar::Uint => unsigned,
    }
}

#[tactic(auto, unfolding(crate::specs::Builtins::built_one))]
fn built_one(
    alloc: Global,
    b: &mut Builder,
    which: Builtin,
    x: Operand,
) -> Result<u32, BuildRefusal>
    ensures { Does result b.new (spec.built_one which x b.old) }
{
    match which {
        Builtin::Abs => extend(alloc, b, glsl_std_450::S_ABS, &[x.id], x.shape),
        Builtin::Sign => extend(alloc, b, glsl_std_450::S_SIGN, &[x.id], x.shape),
        Builtin::Any => as_type(alloc, b, (Scalar::Bool, 1), op::ANY, &[x.id]),
        Builtin::All => as_type(alloc, b, (Scalar::Bool, 1), op::ALL, &[x.id]),
        Builtin::Not => as_type(alloc, b, x.shape, op::LOGICAL_NOT, &[x.id]),
        Builtin::BitCount => as_type(alloc, b, (Scalar::Int, x.shape.1), op::BIT_COUNT, &[x.id]),
        Builtin::FindLsb => {
            extend(
                alloc,
                b,
                glsl_std_450::FIND_I_LSB,
                &[x.id],
                (Scalar::Int, x.shape.1),
            )
        }
        Builtin::FindMsb => {
            let number = number_by_sign(
                x.shape.0,
                glsl_std_450::FIND_S_MSB,
                glsl_std_450::FIND_U_MSB,
            );
            extend(alloc, b, number, &[x.id], (Scalar::Int, x.shape.1))
        }
        Builtin::BitfieldReverse => as_type(alloc, b, x.shape, op::BIT_REVERSE, &[x.id]),
        _ => Ok(0),
    }
}

/// The second as many as the first, or a scalar for each.
fn bounded(
    alloc: Global,
    b: &mut Builder,
    number: u32,
    x: Operand,
    y: Operand,
) -> Result<u32, BuildRefusal>
    ensures { Does result b.new (spec.bounded number x y b.old) }
{
    let bound = spread(alloc, b, x.shape.1, y)?;
    extend(alloc, b, number, &[x.id, bound], x.shape)
}

/// The components of two vectors, one by one.
fn compared(
    alloc: Global,
    b: &mut Builder,
    which: BinaryOp,
    x: Operand,
    y: Operand,
) -> Result<u32, BuildRefusal>
    ensures { Does result b.new (spec.compared which x y b.old) }
{
    let code = binary_code(which, x.shape.0);
    as_type(alloc, b, (Scalar::Bool, x.shape.1), code, &[x.id, y.id])
}

#[tactic(auto, unfolding(crate::specs::Builtins::built_two))]
fn built_two(
    alloc: Global,
    b: &mut Builder,
    which: Builtin,
    x: Operand,
    y: Operand,
) -> Result<u32, BuildRefusal>
    ensures { Does result b.new (spec.built_two which x y b.old) }
{
    match which {
        Builtin::Min => {
            let number = number_by_sign(x.shape.0, glsl_std_450::S_MIN, glsl_std_450::U_MIN);
            bounded(alloc, b, number, x, y)
        }
        Builtin::Max => {
            let number = number_by_sign(x.shape.0, glsl_std_450::S_MAX, glsl_std_450::U_MAX);
            bounded(alloc, b, number, x, y)
        }
        Builtin::LessThan => compared(alloc, b, BinaryOp::Less, x, y),
        Builtin::LessThanEqual => compared(alloc, b, BinaryOp::LessEq, x, y),
        Builtin::GreaterThan => compared(alloc, b, BinaryOp::Greater, x, y),
        Builtin::GreaterThanEqual => compared(alloc, b, BinaryOp::GreaterEq, x, y),
        Builtin::Equal => compared(alloc, b, BinaryOp::Equal, x, y),
        Builtin::NotEqual => compared(alloc, b, BinaryOp::Unequal, x, y),
        _ => Ok(0),
    }
}

fn clamped(
    alloc: Global,
    b: &mut Builder,
    x: Operand,
    low: Operand,
    high: Operand,
) -> Result<u32, BuildRefusal>
    ensures { Does result b.new (spec.clamped x low high b.old) }
{
    let least = spread(alloc, b, x.shape.1, low)?;
    let most = spread(alloc, b, x.shape.1, high)?;
    let number = number_by_sign(x.shape.0, glsl_std_450::S_CLAMP, glsl_std_450::U_CLAMP);
    extend(alloc, b, number, &[x.id, least, most], x.shape)
}

#[tactic(auto, unfolding(crate::specs::Builtins::built_three))]
fn built_three(
    alloc: Global,
    b: &mut Builder,
    which: Builtin,
    x: Operand,
    y: Operand,
    z: Operand,
) -> Result<u32, BuildRefusal>
    ensures { Does result b.new (spec.built_three which x y z b.old) }
{
    match which {
        Builtin::Clamp => clamped(alloc, b, x, y, z),
        Builtin::Mix => selected(alloc, b, x.shape, z.id, y.id, x.id),
        Builtin::BitfieldExtract => {
            let code = by_sign(x.shape.0, op::BIT_FIELD_S_EXTRACT, op::BIT_FIELD_U_EXTRACT);
            as_type(alloc, b, x.shape, code, &[x.id, y.id, z.id])
        }
        _ => Ok(0),
    }
}

#[tactic(auto, unfolding(crate::specs::Builtins::built_four))]
fn built_four(
    alloc: Global,
    b: &mut Builder,
    which: Builtin,
    ids: [u32; 4],
    shape: Shape,
) -> Result<u32, BuildRefusal>
    ensures { Does result b.new (spec.built_four which shape ids b.old) }
{
    match which {
        Builtin::BitfieldInsert => as_type(alloc, b, shape, op::BIT_FIELD_INSERT, &ids),
        _ => Ok(0),
    }
}

/// A built-in function on its arguments, of which there are one to four.
#[tactic(auto, unfolding(crate::specs::Builtins::called))]
pub fn called(
    alloc: Global,
    b: &mut Builder,
    which: Builtin,
    args: &[Operand],
) -> Result<u32, BuildRefusal>
    ensures { Does result b.new (spec.called which args.now b.old) }
{
    match args {
        [x] => built_one(alloc, b, which, *x),
        [x, y] => built_two(alloc, b, which, *x, *y),
        [x, y, z] => built_three(alloc, b, which, *x, *y, *z),
        [x, y, z, w] => {
            let ids = [x.id, y.id, z.id, w.id];
            built_four(alloc, b, which, ids, x.shape)
        }
        _ => Ok(0),
    }
}
