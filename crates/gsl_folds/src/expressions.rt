//! Expressions in postfix form: each word takes its operands off the stack and puts what it makes of them there.

use crate::misread::Misread;
use crate::names::{binary, builtin, logic, step, unary};
use crate::stack::Stack;
use crate::types::{number, read_type};
use gsl_tree::{Expr, ExprKind, LogicOp};
use gsl_values::{BinaryOp, Lanes, Value};
use std::alloc::Global;

/// The expression that a line of words spells, each `NAME:TYPE` or `NAME@ARGUMENT:TYPE`.
pub fn expression(alloc: Global, words: &str) -> Result<Expr, Misread> {
    let mut stack = Stack::new(alloc);
    for word in words.split_whitespace() {
        take(&mut stack, word)?;
    }
    stack.only()
}

fn take(stack: &mut Stack, word: &str) -> Result<(), Misread> {
    let (word, ty) = word.split_once(':').unwrap_or((word, ""));
    let ty = read_type(stack.alloc(), ty)?;
    let (name, argument) = word.split_once('@').unwrap_or((word, "0"));
    let kind = leaf(stack, name, argument)?;
    stack.push(ty, kind)?;
    Ok(())
}

/// A literal, a variable, or what has parts.
fn leaf(stack: &mut Stack, name: &str, argument: &str) -> Result<ExprKind, Misread> {
    match name {
        "const" => {
            let word = u32::from_str_radix(argument, 16).map_err(|_| Misread::Form)?;
            Ok(ExprKind::Const(Value::Word(word)))
        }
        "local" => Ok(ExprKind::Local(number(argument)?)),
        "global" => Ok(ExprKind::Global(number(argument)?)),
        "param" => Ok(ExprKind::Param(number(argument)?)),
        _ => parts(stack, name, argument),
    }
}

/// What has parts of one kind: a member, a swizzle, a length, a conversion, or a list.
fn parts(stack: &mut Stack, name: &str, argument: &str) -> Result<ExprKind, Misread> {
    match name {
        "member" => Ok(ExprKind::Member(stack.boxed()?, number(argument)?)),
        "swizzle" => Ok(ExprKind::Swizzle(stack.boxed()?, lanes(argument)?)),
        "length" => Ok(ExprKind::Length(stack.boxed()?)),
        "convert" => Ok(ExprKind::Convert(stack.boxed()?)),
        "build" => Ok(ExprKind::Build(stack.last(number(argument)?)?)),
        "call" => Ok(ExprKind::Call(0, stack.last(number(argument)?)?)),
        "comma" => Ok(ExprKind::Comma(stack.last(number(argument)?)?)),
        "index" => index(stack),
        "choose" => choose(stack),
        "=" => assign(stack),
        "+=" => update(stack, BinaryOp::Add),
        _ => operator(stack, name, argument),
    }
}

/// An operator or a built-in function, by its name.
fn operator(stack: &mut Stack, name: &str, argument: &str) -> Result<ExprKind, Misread> {
    if let Some(op) = binary(name) {
        return joined(stack, op);
    }
    if let Some(op) = logic(name) {
        return both(stack, op);
    }
    if let Some(op) = unary(name) {
        return Ok(ExprKind::Unary(op, stack.boxed()?));
    }
    if let Some(op) = step(name) {
        return Ok(ExprKind::Step(op, stack.boxed()?));
    }
    match builtin(name) {
        Some(which) => Ok(ExprKind::Built(which, stack.last(number(argument)?)?)),
        None => Err(Misread::Form),
    }
}

fn joined(stack: &mut Stack, op: BinaryOp) -> Result<ExprKind, Misread> {
    let right = stack.boxed()?;
    let left = stack.boxed()?;
    Ok(ExprKind::Binary(op, left, right))
}

fn both(stack: &mut Stack, op: LogicOp) -> Result<ExprKind, Misread> {
    let right = stack.boxed()?;
    let left = stack.boxed()?;
    Ok(ExprKind::Logic(op, left, right))
}

fn index(stack: &mut Stack) -> Result<ExprKind, Misread> {
    let at = stack.boxed()?;
    let whole = stack.boxed()?;
    Ok(ExprKind::Index(whole, at))
}

fn choose(stack: &mut Stack) -> Result<ExprKind, Misread> {
    let other = stack.boxed()?;
    let first = stack.boxed()?;
    let test = stack.boxed()?;
    Ok(ExprKind::Choose(test, first, other))
}

fn assign(stack: &mut Stack) -> Result<ExprKind, Misread> {
    let right = stack.boxed()?;
    let left = stack.boxed()?;
    Ok(ExprKind::Assign(left, right))
}

fn update(stack: &mut Stack, op: BinaryOp) -> Result<ExprKind, Misread> {
    let right = stack.boxed()?;
    let left = stack.boxed()?;
    Ok(ExprKind::Update(op, left, right))
}

/// The positions of a swizzle, one digit each.
fn lanes(digits: &str) -> Result<Lanes, Misread> {
    let mut words = [0; 4];
    let mut count: u32 = 0;
    for digit in digits.bytes() {
        if count >= 4 || !(b'0'..=b'3').contains(&digit) {
            return Err(Misread::Form);
        }
        words[count as usize] = u32::from(digit - b'0');
        count += 1;
    }
    Ok(Lanes { words, count })
}
