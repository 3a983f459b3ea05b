//! Operations on values, which draw choices where the language leaves a word open.

ghost use Rattle.std.specs.Prelude.{◌≡◌, ◌∷◌, [], false, IfOk, OnOk};
ghost use Rattle.gsl_machine.specs.Operations as spec;
ghost use Rattle.gsl_tree.specs.Operations.{binary_words as binary_words_of, builtin_value as builtin_of};
ghost use Rattle.gsl_values.specs.Vectors.{binary_each as each_of};

use crate::operators::{Operator, function_of};
use crate::words::{Words, components, of_components, spread};
use gsl_base::{List, Memory};
use gsl_compute::{builtin_value, copy_value, unary_value};
use gsl_instr::op;
use gsl_values::{BinaryOp, Builtin, Choices, UnaryOp, Value, Values};
use std::alloc::Global;

/// An operator on the words of two values, the lowest component first.
pub fn binary(
    alloc: Global,
    operator: Operator,
    a: &Value,
    b: &Value,
    choices: &mut Choices,
) -> Result<Value, Memory>
    ensures value { IfOk result (λ v. v ≡ (spec.binary operator a.now b.now choices.old).0) }
    ensures left { OnOk result (choices.new ≡ (spec.binary operator a.now b.now choices.old).1) }
{
    let xs = components(alloc, a)?;
    let ys = components(alloc, b)?;
    let words = binary_words(alloc, operator.0, operator.1, &xs, &ys, choices)?;
    Ok(of_components(alloc, &words)?)
}

fn binary_words(
    alloc: Global,
    op: BinaryOp,
    signed: bool,
    xs: &Words,
    ys: &Words,
    choices: &mut Choices,
) -> Result<Words, Memory>
    ensures words { IfOk result (λ l. l ≡ (binary_words_of op signed xs.now ys.now choices.old).0) }
    ensures left { OnOk result (choices.new ≡ (binary_words_of op signed xs.now ys.now choices.old).1) }
{
    let left = spread(alloc, ys.len(), xs)?;
    let right = spread(alloc, xs.len(), ys)?;
    binary_each(alloc, op, signed, &left, &right, choices)
}

fn binary_each(
    alloc: Global,
    op: BinaryOp,
    signed: bool,
    xs: &Words,
    ys: &Words,
    choices: &mut Choices,
) -> Result<Words, Memory>
    ensures words { IfOk result (λ l. l ≡ (each_of op signed xs.now ys.now choices.old).0) }
    ensures left { OnOk result (choices.new ≡ (each_of op signed xs.now ys.now choices.old).1) }
{
    let mut given = List::new(alloc);
    for k in 0..xs.len().min(ys.len()) {
        given.push(gsl_values::binary(op, signed, xs[k], ys[k], choices))?;
    }
    Ok(given)
}

/// A function on values that draws nothing.
fn called(alloc: Global, which: Builtin, signed: bool, args: &Values) -> Result<Value, Memory>
    ensures { IfOk result (λ v. v ≡ (builtin_of which signed args.now []).0) }
{
    let mut none = Choices::new(List::new(alloc));
    builtin_value(alloc, which, signed, args, &mut none)
}

/// A function on one value.
fn called_on(alloc: Global, which: Builtin, v: &Value) -> Result<Value, Memory>
    ensures { IfOk result (λ x. x ≡ (builtin_of which false (v.now ∷ []) []).0) }
{
    let mut args = List::new(alloc);
    args.push(copy_value(alloc, v)?)?;
    called(alloc, which, false, &args)
}

/// The operation on one value of an opcode.
pub fn unary(alloc: Global, code: u16, v: &Value) -> Result<Value, Memory>
    ensures { IfOk result (λ x. x ≡ spec.unary code v.now) }
{
    if code == op::S_NEGATE {
        unary_value(alloc, UnaryOp::Negate, v)
    } else if code == op::NOT {
        unary_value(alloc, UnaryOp::Flip, v)
    } else if code == op::LOGICAL_NOT {
        unary_value(alloc, UnaryOp::Not, v)
    } else if code == op::BIT_REVERSE {
        called_on(alloc, Builtin::BitfieldReverse, v)
    } else if code == op::BIT_COUNT {
        called_on(alloc, Builtin::BitCount, v)
    } else if code == op::ANY {
        called_on(alloc, Builtin::Any, v)
    } else if code == op::ALL {
        called_on(alloc, Builtin::All, v)
    } else {
        copy_value(alloc, v)
    }
}

/// Copies of three values in their order.
fn three(alloc: Global, a: &Value, b: &Value, c: &Value) -> Result<Values, Memory>
    ensures { IfOk result (λ l. l ≡ a.now ∷ b.now ∷ c.now ∷ []) }
{
    let mut args = List::new(alloc);
    args.push(copy_value(alloc, a)?)?;
    args.push(copy_value(alloc, b)?)?;
    args.push(copy_value(alloc, c)?)?;
    Ok(args)
}

/// The first of two values where the condition holds, component by component where that is a vector.
pub fn select(alloc: Global, condition: &Value, a: &Value, b: &Value) -> Result<Value, Memory>
    ensures { IfOk result (λ v. v ≡ spec.select condition.now a.now b.now) }
{
    let args = three(alloc, b, a, condition)?;
    called(alloc, Builtin::Mix, false, &args)
}

/// A bit field put into a word.
pub fn inserted(
    alloc: Global,
    base: &Value,
    insert: &Value,
    offset: &Value,
    count: &Value,
    choices: &mut Choices,
) -> Result<Value, Memory>
    ensures value { IfOk result (λ v. v ≡ (spec.inserted base.now insert.now offset.now count.now choices.old).0) }
    ensures left { OnOk result (choices.new ≡ (spec.inserted base.now insert.now offset.now count.now choices.old).1) }
{
    let mut args = three(alloc, base, insert, offset)?;
    args.push(copy_value(alloc, count)?)?;
    builtin_value(alloc, Builtin::BitfieldInsert, false, &args, choices)
}

/// A bit field taken out of a word, with its sign or without by the opcode.
pub fn extracted(
    alloc: Global,
    code: u16,
    base: &Value,
    offset: &Value,
    count: &Value,
    choices: &mut Choices,
) -> Result<Value, Memory>
    ensures value { IfOk result (λ v. v ≡ (spec.extracted code base.now offset.now count.now choices.old).0) }
    ensures left { OnOk result (choices.new ≡ (spec.extracted code base.now offset.now count.now choices.old).1) }
{
    let args = three(alloc, base, offset, count)?;
    let signed = code == op::BIT_FIELD_S_EXTRACT;
    builtin_value(alloc, Builtin::BitfieldExtract, signed, &args, choices)
}

/// What an extended instruction gives.
pub fn extend(alloc: Global, number: u32, args: &Values) -> Result<Value, Memory>
    ensures { IfOk result (λ v. v ≡ spec.extend number args.now) }
{
    let (which, signed) = function_of(number);
    called(alloc, which, signed, args)
}
