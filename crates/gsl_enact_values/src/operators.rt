//! The operators and functions that opcodes stand for.

ghost use Rattle.std.specs.Prelude.{◌≡◌};
ghost use Rattle.gsl_machine.specs.Operations as spec;

use gsl_instr::enumerant::glsl_std_450 as extended;
use gsl_instr::op;
use gsl_values::{BinaryOp, Builtin};

/// An operator, and whether it takes words with their sign.
pub type Operator = (BinaryOp, bool);

/// The operator on integers or on their bits of an opcode.
pub fn arithmetic(code: u16) -> Operator
    ensures { result ≡ spec.arithmetic code }
{
    if code == op::I_ADD {
        (BinaryOp::Add, false)
    } else if code == op::I_SUB {
        (BinaryOp::Sub, false)
    } else if code == op::I_MUL {
        (BinaryOp::Mul, false)
    } else if code == op::U_DIV {
        (BinaryOp::Div, false)
    } else if code == op::S_DIV {
        (BinaryOp::Div, true)
    } else if code == op::U_MOD {
        (BinaryOp::Mod, false)
    } else if code == op::S_MOD {
        (BinaryOp::Mod, true)
    } else if code == op::BITWISE_OR {
        (BinaryOp::Or, false)
    } else if code == op::BITWISE_XOR {
        (BinaryOp::Xor, false)
    } else {
        (BinaryOp::And, false)
    }
}

/// The shift of an opcode.
pub fn shift(code: u16) -> Operator
    ensures { result ≡ spec.shift code }
{
    if code == op::SHIFT_RIGHT_LOGICAL {
        (BinaryOp::Shr, false)
    } else if code == op::SHIFT_RIGHT_ARITHMETIC {
        (BinaryOp::Shr, true)
    } else {
        (BinaryOp::Shl, false)
    }
}

/// The operator on truth values of an opcode.
pub fn logical(code: u16) -> Operator
    ensures { result ≡ spec.logical code }
{
    if code == op::LOGICAL_EQUAL {
        (BinaryOp::Equal, false)
    } else if code == op::LOGICAL_NOT_EQUAL {
        (BinaryOp::Unequal, false)
    } else if code == op::LOGICAL_OR {
        (BinaryOp::Or, false)
    } else {
        (BinaryOp::And, false)
    }
}

/// The comparison of an opcode.
pub fn comparison(code: u16) -> Operator
    ensures { result ≡ spec.comparison code }
{
    if code == op::I_EQUAL {
        (BinaryOp::Equal, false)
    } else if code == op::I_NOT_EQUAL {
        (BinaryOp::Unequal, false)
    } else if code == op::U_GREATER_THAN {
        (BinaryOp::Greater, false)
    } else if code == op::S_GREATER_THAN {
        (BinaryOp::Greater, true)
    } else if code == op::U_GREATER_THAN_EQUAL {
        (BinaryOp::GreaterEq, false)
    } else if code == op::S_GREATER_THAN_EQUAL {
        (BinaryOp::GreaterEq, true)
    } else if code == op::U_LESS_THAN {
        (BinaryOp::Less, false)
    } else if code == op::S_LESS_THAN {
        (BinaryOp::Less, true)
    } else if code == op::U_LESS_THAN_EQUAL {
        (BinaryOp::LessEq, false)
    } else {
        (BinaryOp::LessEq, true)
    }
}

/// The function of an extended instruction, and whether it takes words with their sign.
pub fn function_of(number: u32) -> (Builtin, bool)
    ensures { result ≡ spec.function_of number }
{
    if number == extended::S_ABS {
        (Builtin::Abs, true)
    } else if number == extended::S_SIGN {
        (Builtin::Sign, true)
    } else if number == extended::U_MIN {
        (Builtin::Min, false)
    } else if number == extended::S_MIN {
        (Builtin::Min, true)
    } else if number == extended::U_MAX {
        (Builtin::Max, false)
    } else if number == extended::S_MAX {
        (Builtin::Max, true)
    } else if number == extended::U_CLAMP {
        (Builtin::Clamp, false)
    } else if number == extended::S_CLAMP {
        (Builtin::Clamp, true)
    } else if number == extended::FIND_I_LSB {
        (Builtin::FindLsb, false)
    } else if number == extended::FIND_S_MSB {
        (Builtin::FindMsb, true)
    } else {
        (Builtin::FindMsb, false)
    }
}
