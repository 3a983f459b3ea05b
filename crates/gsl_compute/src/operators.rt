ghost use Rattle.std.specs.Prelude.{◌≡◌, IfOk, OnOk, map};
ghost use Rattle.gsl_tree.specs.Operations as spec;
ghost use Rattle.gsl_values.specs.Operators.{unary_word};
ghost use Rattle.gsl_values.specs.Vectors.{binary_each as each_of};

use crate::equality::same_value;
use crate::words::{Words, components, of_components, spread};
use gsl_base::{List, Memory};
use gsl_tree::{LogicOp, StepOp};
use gsl_values::{BinaryOp, Choices, UnaryOp, Value, binary, unary};
use std::alloc::Global;

/// An operator on one value, component by component.
pub fn unary_value(alloc: Global, op: UnaryOp, value: &Value) -> Result<Value, Memory>
    ensures { IfOk result (λ v. v ≡ spec.unary_value op value.now) }
{
    let words = components(alloc, value)?;
    let words = unary_words(alloc, op, &words)?;
    Ok(of_components(alloc, &words)?)
}

fn unary_words(alloc: Global, op: UnaryOp, words: &Words) -> Result<Words, Memory>
    ensures { IfOk result (λ l. l ≡ map (unary_word op) words.now) }
{
    let mut given = List::new(alloc);
    for k in 0..words.len() {
        given.push(unary(op, words[k]))?;
    }
    Ok(given)
}

/// An operator on two values; `signed` says whether the left one is an `int` or a vector of them. Where the language leaves a
/// component open, a choice is drawn, for the lowest component first.
pub fn binary_value(
    alloc: Global,
    op: BinaryOp,
    signed: bool,
    a: &Value,
    b: &Value,
    choices: &mut Choices,
) -> Result<Value, Memory>
    ensures value { IfOk result (λ v. v ≡ (spec.binary_value op signed a.now b.now choices.old).0) }
    ensures left { OnOk result (choices.new ≡ (spec.binary_value op signed a.now b.now choices.old).1) }
{
    match op {
        BinaryOp::Equal => Ok(Value::Word(same_value(a, b) as u32)),
        BinaryOp::Unequal => Ok(Value::Word(!same_value(a, b) as u32)),
        _ => {
            let xs = components(alloc, a)?;
            let ys = components(alloc, b)?;
            let words = binary_words(alloc, op, signed, &xs, &ys, choices)?;
            Ok(of_components(alloc, &words)?)
        }
    }
}

fn binary_words(
    alloc: Global,
    op: BinaryOp,
    signed: bool,
    xs: &Words,
    ys: &Words,
    choices: &mut Choices,
) -> Result<Words, Memory>
    ensures words { IfOk result (λ l. l ≡ (spec.binary_words op signed xs.now ys.now choices.old).0) }
    ensures left { OnOk result (choices.new ≡ (spec.binary_words op signed xs.now ys.now choices.old).1) }
{
    let left = spread(alloc, ys.len(), xs)?;
    let right = spread(alloc, xs.len(), ys)?;
    binary_each(alloc, op, signed, &left, &right, choices)
}

fn binary_each(
    alloc: Global,
    op: BinaryOp,
    signed: bool,
    xs: &Words,
    ys: &Words,
    choices: &mut Choices,
) -> Result<Words, Memory>
    ensures words { IfOk result (λ l. l ≡ (each_of op signed xs.now ys.now choices.old).0) }
    ensures left { OnOk result (choices.new ≡ (each_of op signed xs.now ys.now choices.old).1) }
{
    let mut given = List::new(alloc);
    for k in 0..xs.len().min(ys.len()) {
        given.push(binary(op, signed, xs[k], ys[k], choices))?;
    }
    Ok(given)
}

/// Whether the first operand decides, so that the second is not evaluated.
pub fn decides(op: LogicOp, word: u32) -> bool
    ensures { result ≡ spec.decides op word }
{
    match op {
        LogicOp::And => word == 0,
        LogicOp::Or => word != 0,
        LogicOp::Xor => false,
    }
}

/// What a logical operator gives where it evaluates both operands.
pub fn logic_word(op: LogicOp, a: u32, b: u32) -> u32
    ensures { result ≡ spec.logic_word op a b }
{
    match op {
        LogicOp::And | LogicOp::Or => b,
        LogicOp::Xor => (a != b) as u32,
    }
}

/// What `++` and `--` make of a value, component by component.
pub fn step_value(alloc: Global, op: StepOp, value: &Value) -> Result<Value, Memory>
    ensures { IfOk result (λ v. v ≡ spec.step_value op value.now) }
{
    let words = components(alloc, value)?;
    let words = step_words(alloc, op, &words)?;
    Ok(of_components(alloc, &words)?)
}

fn step_words(alloc: Global, op: StepOp, words: &Words) -> Result<Words, Memory>
    ensures { IfOk result (λ l. l ≡ map (spec.step_word op) words.now) }
{
    let mut given = List::new(alloc);
    for k in 0..words.len() {
        given.push(step_word(op, words[k]))?;
    }
    Ok(given)
}

fn step_word(op: StepOp, word: u32) -> u32
    ensures { result ≡ spec.step_word op word }
{
    match op {
        StepOp::PreUp | StepOp::PostUp => word.wrapping_add(1),
        StepOp::PreDown | StepOp::PostDown => word.wrapping_sub(1),
    }
}
