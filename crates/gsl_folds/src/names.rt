//! Operators and built-in functions by their names.

use gsl_tree::{LogicOp, StepOp};
use gsl_values::{BinaryOp, Builtin, UnaryOp};

pub fn unary(name: &str) -> Option<UnaryOp> {
    match name {
        "negate" => Some(UnaryOp::Negate),
        "~" => Some(UnaryOp::Flip),
        "!" => Some(UnaryOp::Not),
        _ => None,
    }
}

pub fn binary(name: &str) -> Option<BinaryOp> {
    match name {
        "+" => Some(BinaryOp::Add),
        "-" => Some(BinaryOp::Sub),
        "*" => Some(BinaryOp::Mul),
        "/" => Some(BinaryOp::Div),
        "%" => Some(BinaryOp::Mod),
        "<<" => Some(BinaryOp::Shl),
        ">>" => Some(BinaryOp::Shr),
        "&" => Some(BinaryOp::And),
        "|" => Some(BinaryOp::Or),
        "^" => Some(BinaryOp::Xor),
        "<" => Some(BinaryOp::Less),
        "<=" => Some(BinaryOp::LessEq),
        ">" => Some(BinaryOp::Greater),
        ">=" => Some(BinaryOp::GreaterEq),
        "==" => Some(BinaryOp::Equal),
        "!=" => Some(BinaryOp::Unequal),
        _ => None,
    }
}

pub fn logic(name: &str) -> Option<LogicOp> {
    match name {
        "&&" => Some(LogicOp::And),
        "||" => Some(LogicOp::Or),
        "^^" => Some(LogicOp::Xor),
        _ => None,
    }
}

pub fn step(name: &str) -> Option<StepOp> {
    match name {
        "++a" => Some(StepOp::PreUp),
        "--a" => Some(StepOp::PreDown),
        "a++" => Some(StepOp::PostUp),
        "a--" => Some(StepOp::PostDown),
        _ => None,
    }
}

pub fn builtin(name: &str) -> Option<Builtin> {
    match name {
        "abs" => Some(Builtin::Abs),
        "sign" => Some(Builtin::Sign),
        "min" => Some(Builtin::Min),
        "max" => Some(Builtin::Max),
        "clamp" => Some(Builtin::Clamp),
        "mix" => Some(Builtin::Mix),
        "lessThan" => Some(Builtin::LessThan),
        "lessThanEqual" => Some(Builtin::LessThanEqual),
        "greaterThan" => Some(Builtin::GreaterThan),
        "greaterThanEqual" => Some(Builtin::GreaterThanEqual),
        "equal" => Some(Builtin::Equal),
        "notEqual" => Some(Builtin::NotEqual),
        _ => builtin_of_one(name),
    }
}

fn builtin_of_one(name: &str) -> Option<Builtin> {
    match name {
        "any" => Some(Builtin::Any),
        "all" => Some(Builtin::All),
        "not" => Some(Builtin::Not),
        "bitCount" => Some(Builtin::BitCount),
        "findLSB" => Some(Builtin::FindLsb),
        "findMSB" => Some(Builtin::FindMsb),
        "bitfieldReverse" => Some(Builtin::BitfieldReverse),
        "bitfieldExtract" => Some(Builtin::BitfieldExtract),
        "bitfieldInsert" => Some(Builtin::BitfieldInsert),
        _ => None,
    }
}
